//! What a value of an attribute weighs.
use crate::name_view::NameView;
use crate::text_view::TextView;
use target_expr::Attr;

/// What a value of an attribute weighs, as it is written.
#[derive(Drop)]
pub struct RawWeight<'a> {
    /// The attribute's name.
    pub attr: NameView<'a>,
    pub value: TextView<'a>,
    pub weight: u32,
}

/// What a value of an attribute weighs: up to 1,000,000.
#[derive(Drop)]
pub struct Weight<'a> {
    pub attr: Attr,
    pub weight: u32,
    pub value: TextView<'a>,
}
