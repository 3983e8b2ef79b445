//! The texts of the faults of bodies, with their places.
ghost use Rattle.std.specs.Prelude.{◌≡◌, IfOk};
ghost use Rattle.campaign.specs.Paths.{camp_path};
ghost use Rattle.refusal_text.specs.Refusals.{campaign_fault_text, fact_fault_text, field_text, json_fault_text, price_text, price_word as word_of_price, request_fault_text, target_fault_text, target_text};
ghost use Rattle.rtb_types.specs.Paths.{path};

use crate::errors::{error_text, with_number, with_numbers, with_text, with_texts};
use campaign::{CampField, FactFault};
use campaign_read::CampFault;
use exact_json::JsonFault;
use rtb_num::{PriceFault, Txt};
use rtb_read::ReqFault;
use rtb_types::Field;
use std::alloc::{AllocError, Global};
use target_expr::ExprFault;

/// The text of bytes that are no JSON text, with the offset of the fault.
pub fn json_fault_text(alloc: Global, fault: JsonFault) -> Result<Txt, AllocError>
    ensures { IfOk result (λ t. t ≡ json_fault_text fault) }
{
    match fault {
        JsonFault::Memory => Ok(Txt::new(alloc)),
        JsonFault::Utf8 { at } => with_number(alloc, b"json-utf8", b"at", at),
        JsonFault::Syntax { at } => with_number(alloc, b"json-syntax", b"at", at),
        JsonFault::Ended { at } => with_number(alloc, b"json-ended", b"at", at),
        JsonFault::Deep { at } => with_number(alloc, b"json-deep", b"at", at),
    }
}

/// The text of a JSON text that is no bid request.
pub fn request_fault_text(alloc: Global, fault: &ReqFault) -> Result<Txt, AllocError>
    ensures { IfOk result (λ t. t ≡ request_fault_text fault.now) }
{
    match fault {
        ReqFault::NotObject => error_text(alloc, b"not-object"),
        ReqFault::Missing { field } => of_field(alloc, b"missing", field),
        ReqFault::WrongType { field } => of_field(alloc, b"wrong-type", field),
        ReqFault::Range { field } => of_field(alloc, b"range", field),
        ReqFault::Price { field, fault } => of_price(alloc, field, *fault),
        ReqFault::AuctionType { field } => of_field(alloc, b"auction-type", field),
        ReqFault::NoImps => error_text(alloc, b"no-imps"),
        ReqFault::TooManyImps { count } => with_number(alloc, b"too-many-imps", b"count", *count),
        ReqFault::DuplicateImp { first, second } => {
            with_numbers(
                alloc,
                b"duplicate-imp",
                (b"first", *first),
                (b"second", *second),
            )
        }
        ReqFault::Memory => Ok(Txt::new(alloc)),
    }
}

fn of_field(alloc: Global, word: &[u8], field: &Field) -> Result<Txt, AllocError>
    ensures { IfOk result (λ t. t ≡ field_text word.now (path field.now)) }
{
    let path = path_of(alloc, field)?;
    let text = with_text(alloc, word, b"field", path.as_bytes())?;
    Ok(text)
}

fn of_price(alloc: Global, field: &Field, fault: PriceFault) -> Result<Txt, AllocError>
    ensures { IfOk result (λ t. t ≡ price_text (path field.now) fault) }
{
    let path = path_of(alloc, field)?;
    let text = price_error(alloc, path.as_bytes(), fault)?;
    Ok(text)
}

fn path_of(alloc: Global, field: &Field) -> Result<Txt, AllocError>
    ensures { IfOk result (λ t. t ≡ path field.now) }
{
    let mut text = Txt::new(alloc);
    field.write(&mut text)?;
    Ok(text)
}

fn price_error(alloc: Global, path: &[u8], fault: PriceFault) -> Result<Txt, AllocError>
    ensures { IfOk result (λ t. t ≡ price_text path.now fault) }
{
    with_texts(
        alloc,
        b"price",
        (b"field", path),
        (b"fault", price_word(fault)),
    )
}

fn price_word(fault: PriceFault) -> &'static [u8]
    ensures { result.now ≡ word_of_price fault }
{
    match fault {
        PriceFault::Negative => b"negative",
        PriceFault::TooLarge => b"too-large",
        PriceFault::TooFine => b"too-fine",
    }
}

/// The text of a JSON text that is no campaign.
pub fn campaign_fault_text(alloc: Global, fault: &CampFault) -> Result<Txt, AllocError>
    ensures { IfOk result (λ t. t ≡ campaign_fault_text fault.now) }
{
    match fault {
        CampFault::NotObject => error_text(alloc, b"not-object"),
        CampFault::Missing { field } => of_camp_field(alloc, b"missing", field),
        CampFault::WrongType { field } => of_camp_field(alloc, b"wrong-type", field),
        CampFault::Range { field } => of_camp_field(alloc, b"range", field),
        CampFault::Price { field, fault } => of_camp_price(alloc, field, *fault),
        CampFault::Fact { fault } => of_fact(alloc, fault),
        CampFault::Target { fault } => of_target(alloc, fault),
        CampFault::Memory => Ok(Txt::new(alloc)),
    }
}

fn of_camp_field(alloc: Global, word: &[u8], field: &CampField) -> Result<Txt, AllocError>
    ensures { IfOk result (λ t. t ≡ field_text word.now (camp_path field.now)) }
{
    let path = camp_path_of(alloc, field)?;
    let text = with_text(alloc, word, b"field", path.as_bytes())?;
    Ok(text)
}

fn of_camp_price(alloc: Global, field: &CampField, fault: PriceFault) -> Result<Txt, AllocError>
    ensures { IfOk result (λ t. t ≡ price_text (camp_path field.now) fault) }
{
    let path = camp_path_of(alloc, field)?;
    let text = price_error(alloc, path.as_bytes(), fault)?;
    Ok(text)
}

fn camp_path_of(alloc: Global, field: &CampField) -> Result<Txt, AllocError>
    ensures { IfOk result (λ t. t ≡ camp_path field.now) }
{
    let mut text = Txt::new(alloc);
    field.write(&mut text)?;
    Ok(text)
}

fn of_fact(alloc: Global, fault: &FactFault) -> Result<Txt, AllocError>
    ensures { IfOk result (λ t. t ≡ fact_fault_text fault.now) }
{
    match fault {
        FactFault::TextLength { field } => of_camp_field(alloc, b"text-length", field),
        FactFault::ListLength { field } => of_camp_field(alloc, b"list-length", field),
        FactFault::BidZero => error_text(alloc, b"bid-zero"),
        FactFault::Size => error_text(alloc, b"size"),
    }
}

fn of_target(alloc: Global, fault: &ExprFault) -> Result<Txt, AllocError>
    ensures { IfOk result (λ t. t ≡ target_fault_text fault.now) }
{
    match fault {
        ExprFault::NoConjunction => error_text(alloc, b"no-conjunction"),
        ExprFault::EmptyList {
            conjunction,
            predicate,
        } => of_predicate(alloc, b"empty-list", *conjunction, *predicate),
        ExprFault::AttrTwice {
            conjunction,
            predicate,
        } => of_predicate(alloc, b"attr-twice", *conjunction, *predicate),
        ExprFault::TooMany {
            conjunction,
            predicate,
        } => of_predicate(alloc, b"too-many", *conjunction, *predicate),
        ExprFault::UnknownAttr {
            conjunction,
            predicate,
        } => of_predicate(alloc, b"unknown-attr", *conjunction, *predicate),
        ExprFault::Memory => Ok(Txt::new(alloc)),
    }
}

fn of_predicate(
    alloc: Global,
    word: &[u8],
    conjunction: usize,
    predicate: usize,
) -> Result<Txt, AllocError>
    ensures { IfOk result (λ t. t ≡ target_text word.now conjunction predicate) }
{
    with_numbers(
        alloc,
        word,
        (b"conjunction", conjunction),
        (b"predicate", predicate),
    )
}
