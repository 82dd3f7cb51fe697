//! The bill of one tool: a request that carries it through XML and JSON, its answer, and how the program runs on it.

use cdx_events::{List, MemorySink, MemorySource};
use cdx_tool::run;
use std::alloc::{AllocError, Global};

/// The request.
pub const REQUEST: &str =
    r#"{"from":"1.5","doc":{"json":{"bomFormat":"CycloneDX","specVersion":"1.5","version":1,"serialNumber":"urn:uuid:3e671687-395b-41f5-a30f-a58921a69b79","metadata":{"tools":[{"name":"my_tool"}]}}},"hops":[{"form":"xml","version":"1.5"},{"form":"json","version":"1.5"}]}"#;

/// Its answer, which a line feed ends.
pub const ANSWER: &str =
    r#"{"documents":[{"xml":[{"document":"start"},{"attributes":[{"name":"serialNumber","value":"urn:uuid:3e671687-395b-41f5-a30f-a58921a69b79"},{"name":"version","value":"1"}],"default":"http://cyclonedx.org/schema/bom/1.5","element":"bom"},{"element":"metadata"},{"element":"tools"},{"element":"tool"},{"element":"name"},{"text":"my_tool"},{"end":"name"},{"end":"tool"},{"end":"tools"},{"end":"metadata"},{"end":"bom"},{"document":"end"}]},{"json":{"bomFormat":"CycloneDX","metadata":{"tools":[{"name":"my_tool"}]},"serialNumber":"urn:uuid:3e671687-395b-41f5-a30f-a58921a69b79","specVersion":"1.5","version":1}}]}
"#;

/// The events of the bill, as a request has them.
pub const EVENTS: [&str; 13] = [
    r#"{"document":"start"}"#,
    r#"{"attributes":[{"name":"serialNumber","value":"urn:uuid:3e671687-395b-41f5-a30f-a58921a69b79"},{"name":"version","value":"1"}],"default":"http://cyclonedx.org/schema/bom/1.5","element":"bom"}"#,
    r#"{"element":"metadata"}"#,
    r#"{"element":"tools"}"#,
    r#"{"element":"tool"}"#,
    r#"{"element":"name"}"#,
    r#"{"text":"my_tool"}"#,
    r#"{"end":"name"}"#,
    r#"{"end":"tool"}"#,
    r#"{"end":"tools"}"#,
    r#"{"end":"metadata"}"#,
    r#"{"end":"bom"}"#,
    r#"{"document":"end"}"#,
];

/// The same events, as a line.
pub const LINE: &str =
    "start|<bom xmlns=1.5 serialNumber=urn:uuid:3e671687-395b-41f5-a30f-a58921a69b79 version=1|<metadata|<tools|<tool|<name|=my_tool|>name|>tool|>tools|>metadata|>bom|end";

/// So many bytes a source gives in a call at most, and a sink takes.
pub const STEP: usize = 7;

/// How the program ended: its status, how many calls of the source it made, and the sink after it.
#[derive(Drop)]
pub struct Ended {
    /// The status.
    pub status: u8,
    /// How many calls of the source were made.
    pub taken: u64,
    /// The sink after it.
    pub sink: MemorySink,
}

/// The call with this number fails. No call has the number 0.
pub fn only(alloc: Global, call: u64) -> Result<List<u64>, AllocError> {
    Ok(List::from_vec([call].to_vec(alloc)?))
}

/// Runs the program on the bytes of a request of a road. The calls of the source and of the sink with these numbers fail.
pub fn run_road(
    alloc: Global,
    bytes: &[u8],
    source_fails: u64,
    sink_fails: u64,
) -> Result<Ended, AllocError> {
    let words = [String::from_str(alloc, "road")?];
    let bytes = List::from_vec(bytes.to_vec(alloc)?);
    let mut source = MemorySource::new(bytes, STEP, only(alloc, source_fails)?);
    let mut sink = MemorySink::new(alloc, 4096, STEP, only(alloc, sink_fails)?)?;
    let status = run(alloc, &words, &mut source, &mut sink);
    let taken = source.calls();
    Ok(Ended {
        status,
        taken,
        sink,
    })
}
