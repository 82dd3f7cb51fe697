//! Lists of events: balanced or not, gathered, sent, copied; and versions and paths as texts.

use cdx_events::{
    Balance, Copied, EventReader, EventWriter, Events, EventsError, List, MemoryEventSink,
    MemoryEventSource, OwnedAttribute, OwnedName, Text, XmlEvent, gather, send,
};
use cdx_models::{Path, SpecVersion, Step};
use cdx_test_cases::checks::{holds, row_holds, row_is, text_is};
use cdx_test_cases::documents::{line_of, list_of};
use cdx_test_cases::forms::chain;
use cdx_test_cases::rows::{parted, row};
use std::alloc::{AllocError, Global};
use std::test::Fail;

// A bill with one tool: 13 events.
const BILL: &str =
    "start|<bom xmlns=1.5 serialNumber=urn:uuid:3e671687-395b-41f5-a30f-a58921a69b79 version=1|<metadata|<tools|<tool|<name|=my_tool|>name|>tool|>tools|>metadata|>bom|end";

// The events, or where they break, by `from_list`.
fn balanced(alloc: Global, line: &str) -> Result<String, AllocError> {
    match Events::from_list(alloc, list_of(alloc, line)?) {
        Ok(events) => line_of(alloc, events.into_list().as_slice()),
        Err(error) => format!(in alloc; "{error:?}"),
    }
}

fn written(alloc: Global, line: &str) -> Result<EventWriter, AllocError> {
    let mut writer = EventWriter::new(alloc);
    for event in list_of(alloc, line)?.into_vec() {
        writer.write(event)?;
    }
    Ok(writer)
}

// The same, by `finish`.
fn finished(alloc: Global, line: &str) -> Result<String, AllocError> {
    match written(alloc, line)?.finish() {
        Ok(events) => line_of(alloc, events.into_list().as_slice()),
        Err(error) => format!(in alloc; "{error:?}"),
    }
}

// Whether a reader gives the events one by one, and tells the place of each.
fn is_in_turn(events: &Events) -> bool {
    let mut reader = EventReader::new(events);
    for at in 0..events.len() {
        if reader.place() != at || reader.next() != events.get(at) {
            return false;
        }
    }
    reader.next().is_none() && events.get(events.len()).is_none()
}

// The events' copy, where they are in turn.
fn turned(alloc: Global, line: &str) -> Result<String, Fail> {
    let events = Events::from_list(alloc, list_of(alloc, line)?)?;
    if !is_in_turn(&events) {
        return Err(Fail::new("not in turn"));
    }
    Ok(line_of(alloc, events.copy(alloc)?.into_list().as_slice())?)
}

// Two numbers, and the events after them, or those of the bill.
fn asked(alloc: Global, words: &str) -> Result<(usize, List<u64>, List<XmlEvent>), Fail> {
    let (one, rest) = parted(words);
    let (other, line) = parted(rest);
    let events = list_of(alloc, if line.is_empty() { BILL } else { line })?;
    let mut fails = List::new(alloc);
    fails.push(other.parse::<u64>()?)?;
    Ok((one.parse::<usize>()?, fails, events))
}

// What a source of the events gives within a budget, or the fault.
fn gathered(alloc: Global, words: &str) -> Result<String, Fail> {
    let (budget, fails, events) = asked(alloc, words)?;
    let mut source = MemoryEventSource::new(events, fails);
    match gather(alloc, &mut source, budget) {
        Ok(events) => Ok(line_of(alloc, events.into_list().as_slice())?),
        Err(error) => Ok(format!(in alloc; "{error:?}")?),
    }
}

// What stands in a sink of some room that the events are sent into, after the fault.
fn sent(alloc: Global, words: &str) -> Result<String, Fail> {
    let (room, fails, events) = asked(alloc, words)?;
    let mut sink = MemoryEventSink::new(alloc, room, fails)?;
    let end = send(Events::from_list(alloc, events)?, &mut sink);
    let line = line_of(alloc, sink.events())?;
    match end {
        Ok(()) => Ok(line),
        Err(error) => Ok(format!(in alloc; "{error:?} {}", line.as_str())?),
    }
}

// Calls are counted from 1, so none fails where the second number is 0.
const EVENTS: &str = r#"
    balance =text -> Unbalanced { place: 0 }
    balance start|=text|end -> Unbalanced { place: 1 }
    balance start|<a|>b -> Unbalanced { place: 2 }
    balance start|<recursiveTag|<innerTag|<recursiveTag|=Text|>recursiveTag|>innerTag -> Unbalanced { place: 7 }
    balance start|<a|>a|end -> start|<a|>a|end
    balance start|<a|>a|end|end -> Unbalanced { place: 4 }
    read start|<a|<b|=x|>b|>a|end -> start|<a|<b|=x|>b|>a|end
    write =x|>a -> =x|>a
    gather 5 0 -> Budget { taken: 5 }
    gather 12 0 -> Budget { taken: 12 }
    gather 0 1 -> Budget { taken: 0 }
    gather 13 2 -> Fault { taken: 1 }
    gather 13 14 -> start|<bom xmlns=1.5 serialNumber=urn:uuid:3e671687-395b-41f5-a30f-a58921a69b79 version=1|<metadata|<tools|<tool|<name|=my_tool|>name|>tool|>tools|>metadata|>bom|end
    gather 9 0 start|<a -> Unbalanced { place: 2 }
    send 13 4 -> SendError { put: 3 } start|<bom xmlns=1.5 serialNumber=urn:uuid:3e671687-395b-41f5-a30f-a58921a69b79 version=1|<metadata
    send 13 0 -> start|<bom xmlns=1.5 serialNumber=urn:uuid:3e671687-395b-41f5-a30f-a58921a69b79 version=1|<metadata|<tools|<tool|<name|=my_tool|>name|>tool|>tools|>metadata|>bom|end
    send 2 0 -> SendError { put: 2 } start|<bom xmlns=1.5 serialNumber=urn:uuid:3e671687-395b-41f5-a30f-a58921a69b79 version=1
"#;

fn answer(alloc: Global, word: &str, given: &str) -> Result<String, Fail> {
    match word {
        "balance" => {
            let answer = balanced(alloc, given)?;
            if finished(alloc, given)? != answer {
                return Err(Fail::new("a writer breaks elsewhere"));
            }
            Ok(answer)
        }
        "read" => turned(alloc, given),
        "write" => Ok(line_of(alloc, written(alloc, given)?.into_list().as_slice())?),
        "gather" => gathered(alloc, given),
        "send" => sent(alloc, given),
        _ => Err(Fail::new("no such word")),
    }
}

#[test]
fn lists(rt: HostRuntime) -> Result<(), Fail> {
    let alloc = rt.alloc();
    for line in EVENTS.lines() {
        if let Some((given, expected)) = row(line) {
            let (word, given) = parted(given);
            row_is(line, answer(alloc, word, given)?.as_str(), expected)?;
        }
    }
    let mut source = MemoryEventSource::new(list_of(alloc, BILL)?, List::new(alloc));
    holds(
        "all events are gathered",
        gather(alloc, &mut source, 13).is_ok(),
    )?;
    holds("each event takes a call", source.calls() == 13)
}

// 100,000 elements, each in the one before it, and no events at all.
#[test]
fn depth_does_not_matter(rt: HostRuntime) -> Result<(), Fail> {
    let alloc = rt.alloc();
    let deep = chain(alloc, "start|", ("<a|", ">a|"), 100_000, "end")?;
    text_is(balanced(alloc, deep.as_str())?.as_str(), deep.as_str())?;
    let asked = format!(in alloc; "200002 0 {}", deep.as_str())?;
    text_is(gathered(alloc, asked.as_str())?.as_str(), deep.as_str())?;
    let none = Events::from_list(alloc, List::new(alloc));
    holds(
        "no events are unbalanced at once",
        matches!(none, Err(EventsError::Unbalanced { place: 0 })),
    )
}

fn full_name(alloc: Global) -> Result<OwnedName, AllocError> {
    let local_name = Text::new(alloc, "a")?;
    let namespace = Text::new(alloc, "urn:n")?;
    let prefix = Text::new(alloc, "p")?;
    Ok(OwnedName {
        local_name,
        namespace: Some(namespace),
        prefix: Some(prefix),
    })
}

fn full_attribute(alloc: Global) -> Result<OwnedAttribute, AllocError> {
    let value = Text::new(alloc, "1")?;
    let name = full_name(alloc)?;
    Ok(OwnedAttribute { name, value })
}

fn is_copied<T: Copied + PartialEq + Drop>(alloc: Global, value: T) -> Result<bool, AllocError> {
    let copy = value.copied(alloc)?;
    Ok(copy == value)
}

#[test]
fn copies_are_equal(rt: HostRuntime) -> Result<(), Fail> {
    let alloc = rt.alloc();
    holds(
        "a name is equal to its copy",
        is_copied(alloc, full_name(alloc)?)?,
    )?;
    holds(
        "an attribute is equal to its copy",
        is_copied(alloc, full_attribute(alloc)?)?,
    )?;
    holds(
        "a name with a prefix is another",
        full_name(alloc)? != OwnedName::local(alloc, "a")?,
    )?;
    for event in list_of(alloc, BILL)?.into_vec() {
        holds("an event is equal to its copy", is_copied(alloc, event)?)?;
    }
    Ok(())
}

#[test]
fn balance_hears(rt: HostRuntime) -> Result<(), Fail> {
    let mut balance = Balance::new(rt.alloc());
    holds(
        "a start is balanced",
        balance.step(&XmlEvent::StartDocument)?,
    )?;
    holds("a start alone is no whole document", !balance.whole())
}

#[test]
fn labels_of_versions() -> Result<(), Fail> {
    for (version, label) in [
        (SpecVersion::V1_3, "1.3"),
        (SpecVersion::V1_4, "1.4"),
        (SpecVersion::V1_5, "1.5"),
    ] {
        text_is(version.as_str(), label)?;
        row_holds(
            label,
            "the label is that of the version",
            SpecVersion::from_text(label) == Some(version),
        )?;
        row_holds(
            label,
            "the lowest of it and 1.4 is 1.3 where it is 1.3 alone",
            (SpecVersion::V1_4.lowest(version).as_str() == "1.3") == (label == "1.3"),
        )?;
        row_holds(
            label,
            "1.4 is known to it unless it is 1.3",
            SpecVersion::V1_4.is_known_to(version) == (label != "1.3"),
        )?;
    }
    holds("1.6 is no version", SpecVersion::from_text("1.6").is_none())
}

fn steps(alloc: Global) -> Result<List<Step>, AllocError> {
    let mut steps = List::new(alloc);
    steps.push(Step::Member(Text::new(alloc, "a/b~c")?))?;
    steps.push(Step::Item(0))?;
    Ok(steps)
}

// RFC 6901: a step is a `/`, with `~0` for `~` and `~1` for `/`.
#[test]
fn printed_paths(rt: HostRuntime) -> Result<(), Fail> {
    let alloc = rt.alloc();
    let path = Path(steps(alloc)?);
    text_is(path.print(alloc)?.as_str(), "/a~1b~0c/0")?;
    let root = Path(List::new(alloc));
    text_is(root.print(alloc)?.as_str(), "")
}
