//! A JSON value, and the last member of a name.
ghost use Rattle.std.specs.Prelude.{◌≡◌, option_map, IfSome};
ghost use Rattle.exact_json.specs.Forms.{HasForms};
ghost use Rattle.exact_json.specs.Tree.{get as get_in, get_pair};
ghost use Rattle.exact_json.specs.View.{pair_of, pairs_of, tree_of};
ghost use Rattle.std.specs.Str.{bytes_eq};

/// A JSON value. Its parts lie in the text that was read, or in the arena that it was read into.
#[derive(Clone, Copy)]
#[cycle(value)]
pub enum Value<'a> {
    Null,
    Bool(bool),
    /// A number's text, as it stands in the input.
    Num(&'a [u8]),
    /// A string's bytes, in UTF-8, its escapes put in place.
    Str(&'a [u8]),
    /// The values of an array, in order.
    Arr(&'a [Value<'a>]),
    /// The members of an object, in order. Names may repeat.
    Obj(&'a [Member<'a>]),
}

/// A member of an object: its name, in UTF-8, and its value.
#[derive(Clone, Copy)]
#[cycle(value)]
pub struct Member<'a> {
    pub name: &'a [u8],
    pub value: Value<'a>,
}

/// The value of the last member of that name, where the value is an object and has one.
pub fn get<'a>(value: &Value<'a>, name: &[u8]) -> Option<&'a Value<'a>>
    ensures value { option_map (λ v. tree_of v.now) result ≡ get_in name.now (tree_of value.now) }
    ensures numbers { HasForms (tree_of value.now) → IfSome result (λ v. HasForms (tree_of v.now)) }
{
    match value {
        Value::Obj(members) => find(*members, name),
        _ => None,
    }
}

// The value of the last member of that name. It looks from the end, so that the first one that it finds is the last.
fn find<'a>(members: &'a [Member<'a>], name: &[u8]) -> Option<&'a Value<'a>>
    ensures { option_map (λ v. tree_of v.now) result ≡ get_pair name.now (pairs_of members.now) }
{
    let mut left = members.len();
    while left > 0 {
        let member = &members[left - 1];
        if is_named(member, name) {
            return Some(value_in(member));
        }
        left -= 1;
    }
    None
}

#[inline(always)]
fn is_named(member: &Member<'_>, name: &[u8]) -> bool
    ensures { result ≡ bytes_eq (pair_of member.now).0 name.now }
{
    are_same(member.name, name)
}

// Whether the texts are the same. Of a few bytes it is quickest to compare one after the other.
#[inline(always)]
fn are_same(a: &[u8], b: &[u8]) -> bool
    ensures { result ≡ bytes_eq a.now b.now }
{
    if a.len() != b.len() {
        return false;
    }
    for i in 0..a.len() {
        if a[i] != b[i] {
            return false;
        }
    }
    true
}

#[inline(always)]
fn value_in<'a>(member: &'a Member<'a>) -> &'a Value<'a>
    ensures { tree_of result.now ≡ (pair_of member.now).1 }
{
    &member.value
}
