//! What a JSON text holds, counted.
use exact_json::{Member, Value};

/// What was counted so far, each number up to multiples of 2^64.
#[derive(Clone, Copy)]
pub struct Counts {
    /// Nulls, booleans, numbers, strings, arrays and objects.
    pub values: u64,
    /// The bytes of strings and names, behind their escapes.
    pub bytes: u64,
}

/// What is counted with the value and all that is in it.
#[cycle(counting)]
pub fn with_tree(counts: Counts, value: &Value<'_>) -> Counts {
    let counts = Counts {
        values: counts.values.wrapping_add(1),
        bytes: counts.bytes,
    };
    match value {
        Value::Str(text) => with_text(counts, text),
        Value::Arr(items) => with_items(counts, items),
        Value::Obj(members) => with_members(counts, members),
        _ => counts,
    }
}

// The bytes of one text more.
fn with_text(counts: Counts, text: &[u8]) -> Counts {
    Counts {
        values: counts.values,
        bytes: counts.bytes.wrapping_add(text.len() as u64),
    }
}

#[cycle(counting)]
fn with_items(counts: Counts, items: &[Value<'_>]) -> Counts {
    let mut counts = counts;
    for value in items {
        counts = with_tree(counts, value);
    }
    counts
}

#[cycle(counting)]
fn with_members(counts: Counts, members: &[Member<'_>]) -> Counts {
    let mut counts = counts;
    for member in members {
        counts = with_member(counts, member);
    }
    counts
}

#[cycle(counting)]
fn with_member(counts: Counts, member: &Member<'_>) -> Counts {
    with_tree(with_text(counts, member.name), &member.value)
}
