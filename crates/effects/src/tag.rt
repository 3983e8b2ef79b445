//! The tags that tell effects apart.
ghost use Rattle.std.specs.Prelude.{◌≡◌, ◌++◌, OnOk, OnErr};
ghost use Rattle.byte_fields.specs.Codes.{IsReadAt};
ghost use Rattle.effects.specs.Bodies.{IsTag, tag_bytes};
ghost use Rattle.effects.specs.Tags.{number_of, tag_numbered, tags};

use byte_fields::{get_byte, put_byte};
use rtb_num::Txt;
use std::alloc::AllocError;

// What the bytes of a change hold.
#[derive(Clone, Copy)]
pub(crate) enum Tag {
    Swept = 0,
    Sold = 1,
    Added = 2,
    Changed = 3,
    Paused = 4,
    Resumed = 5,
    Billed = 6,
    Lost = 7,
    SoldTo = 8,
    CappedAdded = 9,
    CappedChanged = 10,
    Kept = 11,
    KeptSale = 12,
    Forgot = 13,
}

const TAGS: [Tag; 14] = [
    Tag::Swept,
    Tag::Sold,
    Tag::Added,
    Tag::Changed,
    Tag::Paused,
    Tag::Resumed,
    Tag::Billed,
    Tag::Lost,
    Tag::SoldTo,
    Tag::CappedAdded,
    Tag::CappedChanged,
    Tag::Kept,
    Tag::KeptSale,
    Tag::Forgot,
];

impl Tag {
    pub fn number(self) -> u8
        ensures { result ≡ number_of self }
    {
        self as u8
    }

    // The tag of this number.
    fn with_number(n: u8) -> Option<Tag>
        ensures { result ≡ tag_numbered n }
    {
        TAGS.iter().copied().find(|tag| tag.number() == n)
    }
}

// Appends the tag's byte.
pub(crate) fn put_tag(tag: Tag, out: &mut Txt) -> Result<(), AllocError>
    ensures ok { OnOk result (out.new ≡ out.old ++ tag_bytes tag) }
    ensures err { OnErr result (out.new ≡ out.old) }
{
    put_byte(tag.number(), out)
}

// The tag at the place.
pub(crate) fn get_tag(bytes: &[u8], place: usize) -> Option<(Tag, usize)>
    ensures { IsReadAt IsTag tag_bytes bytes.now place result }
{
    let (n, next) = get_byte(bytes, place)?;
    let tag = Tag::with_number(n)?;
    Some((tag, next))
}
