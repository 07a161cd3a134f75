//! The two versions of graph files.

ghost use Rattle.std.specs.Prelude.{◌≡◌};
ghost use Rattle.serde_json.specs.View.{view};
ghost use Rattle.pt_graph_text.specs.Versions.{version_of, is_second};

use serde_json::Value;

/// The version of a graph file.
#[derive(Clone, Copy, Debug, PartialEq, Eq)]
pub enum Version {
    First,
    /// With clock errors of pairs, guards of machine rows, lanes, and higher limits.
    Second,
}

impl Version {
    /// Whether it is the second version.
    pub fn is_second(self) -> bool
        ensures { result ≡ is_second self }
    {
        match self {
            Version::First => false,
            Version::Second => true,
        }
    }
}

/// The version of a file: the second if its member `ptides` is the whole number 2, and else the first.
pub fn version_of(value: &Value) -> Version
    ensures { result ≡ version_of (view value.now) }
{
    match value.get("ptides").and_then(Value::as_i64) {
        Some(2) => Version::Second,
        _ => Version::First,
    }
}
