//! Refusals as JSON values.

ghost use Rattle.std.specs.Prelude.{◌≡◌, Some, IfOk, IsSome};
ghost use Rattle.serde_json.specs.View.{view};
ghost use Rattle.cdx_schema.specs.Roads.{Refusal};
ghost use Rattle.cdx_bom.specs.Docs.{refusal_of};
ghost use Rattle.cdx_request.specs.Refusals.{json_cause, json_members, namespace_members, with_actual, xml_members, refused, refusal_value as refused_for, imbalance_value as unbalanced_at};

use cdx_bom::RoadError;
use cdx_events::Text;
use cdx_models::{JsonKind, JsonReadError, Path, XmlReadError};
use serde_json::{Value, json};
use std::alloc::{AllocError, Global};

fn cause_of(kind: JsonKind) -> &'static str
    ensures { result.now ≡ json_cause kind }
{
    match kind {
        JsonKind::Float => "float",
        JsonKind::Missing => "missing",
        JsonKind::WrongKind => "wrong kind",
        JsonKind::OutOfRange => "out of range",
        JsonKind::BadFormat => "bad format",
        JsonKind::BadSpecVersion => "bad spec version",
        JsonKind::TooDeep => "too deep",
    }
}

fn json_refused(alloc: Global, path: &Path, kind: JsonKind) -> Result<Value, AllocError>
    ensures { IfOk result
        (λ v. view v ≡ refused (json_members (record { path = path.now.0; cause = kind }))) }
{
    let path = path.print(alloc)?;
    json!(in alloc; {"refused": {"cause": cause_of(kind), "path": path.as_str()}})
}

fn namespace_refused(
    alloc: Global,
    expected: &Text,
    actual: &Option<Text>,
) -> Result<Value, AllocError>
    ensures { IfOk result
        (λ v. view v ≡ refused (with_actual actual.now (namespace_members expected.now))) }
{
    let expected = expected.as_str();
    match actual {
        None => json!(in alloc; {
            "refused": {"cause": "namespace", "expected": expected, "place": 1}
        }),
        Some(actual) => json!(in alloc; {
            "refused": {
                "actual": actual.as_str(),
                "cause": "namespace",
                "expected": expected,
                "place": 1
            }
        }),
    }
}

fn xml_refused(alloc: Global, fault: &XmlReadError) -> Result<Value, AllocError>
    ensures { IfOk result (λ v. view v ≡ refused (xml_members fault.now)) }
{
    match fault {
        XmlReadError::InvalidNamespaceError {
            expected_namespace,
            actual_namespace,
        } => namespace_refused(alloc, expected_namespace, actual_namespace),
        XmlReadError::UnexpectedElementReadError { place, element, .. } => json!(in alloc; {
            "refused": {"cause": "unexpected", "element": element.as_str(), "place": *place}
        }),
        XmlReadError::RequiredDataMissing {
            place,
            element,
            required_field,
        } => json!(in alloc; {
            "refused": {
                "cause": "missing",
                "element": element.as_str(),
                "field": required_field.as_str(),
                "place": *place
            }
        }),
        XmlReadError::InvalidParseError {
            place,
            element,
            value,
            ..
        } => json!(in alloc; {
            "refused": {
                "cause": "parse",
                "element": element.as_str(),
                "place": *place,
                "value": value.as_str()
            }
        }),
        XmlReadError::TooDeep { place } => {
            json!(in alloc; {"refused": {"cause": "too deep", "place": *place}})
        }
        _ => json!(in alloc; {"refused": {}}),
    }
}

/// The answer to a document that is refused: `{"refused":{..}}`. A JSON document's fault has its `cause` and its `path`
/// as a JSON pointer; the causes are `float`, `missing`, `wrong kind`, `out of range`, `bad format`, `bad spec version`
/// and `too deep`. A fault of a document of events has its `cause` and its `place`, the number of an event:
///
/// - `namespace`, with `expected` and, where there is one, `actual`;
/// - `unexpected`, with `element`;
/// - `missing`, with `element` and `field`;
/// - `parse`, with `element` and `value`;
/// - `too deep`.
///
/// A bill that lacks a version that a hop asks for has the `cause` `version missing` alone. Only want of memory refuses.
pub fn refusal_value(alloc: Global, error: &RoadError) -> Result<Value, AllocError>
    requires { IsSome (refusal_of error.now) }
    ensures { (r : Refusal) → refusal_of error.now ≡ Some r
        → IfOk result (λ v. view v ≡ refused_for r) }
{
    match error {
        RoadError::Json(JsonReadError::JsonElementReadError { path, kind }) => {
            json_refused(alloc, path, *kind)
        }
        RoadError::Xml(fault) => xml_refused(alloc, fault),
        _ => json!(in alloc; {"refused": {"cause": "version missing"}}),
    }
}

/// The answer to a document whose events break at the place: `{"refused":{"cause":"unbalanced","place":p}}`. Only
/// want of memory refuses.
pub fn imbalance_value(alloc: Global, place: usize) -> Result<Value, AllocError>
    ensures { IfOk result (λ v. view v ≡ unbalanced_at place) }
{
    json!(in alloc; {"refused": {"cause": "unbalanced", "place": place}})
}
