//! Documents of certificates, read from the tokens of a text.

ghost use Rattle.serde_json.specs.Data.{Members, object};
ghost use Rattle.dsa_tokens.specs.Spelled.{AreInOrder};
ghost use Rattle.dsa_tokens.specs.Taken.{AnswersItems};
ghost use Rattle.dsa_cert.specs.Document.{ReadsDocument, ReadsPair, ReadsTwo};
ghost use Rattle.dsa_cert.specs.Held.{AreHeld, PairsTwo, SaysPairs, SaysPrices};

use dsa_descriptor::MOST_PIECES;
use dsa_plan::Certificate;
use dsa_tokens::{
    Fields, Kind, Slot, Unread, Whole, end_items, list_up_to, next_item, object_into, pass_member,
    pass_other, read_into,
};
use json::{Reader, Token};
use std::alloc::Global;

/// The most pairs that are kept. A certificate with more is refused, at the latest for their number.
const MOST_PAIRS: usize = MOST_PIECES + 1;

/// The most prices that are kept, in the same way.
const MOST_PRICES: usize = MOST_PIECES + 2;

/// Two numbers, if both are there and fit their places.
fn pair_with(first: Option<u64>, second: Option<u64>) -> Option<(u32, u32)>
    ensures { PairsTwo first second result }
{
    let (Some(first), Some(second)) = (first, second) else {
        return None;
    };
    match (u32::try_from(first), u32::try_from(second)) {
        (Ok(first), Ok(second)) => Some((first, second)),
        _ => None,
    }
}

/// The items of an array that was begun, if they are two numbers that fit their places.
fn two_numbers<'t>(
    alloc: Global,
    reader: &mut Reader<'t>,
    depth: usize,
) -> Result<Option<(u32, u32)>, Unread>
    ensures { AnswersItems ReadsTwo depth reader.old reader.new result }
{
    let Some(first) = next_item::<Whole>(alloc, reader, depth)? else {
        return Ok(None);
    };
    let Some(second) = next_item::<Whole>(alloc, reader, depth)? else {
        return Ok(None);
    };
    if !end_items(reader, depth)? {
        return Ok(None);
    }
    Ok(pair_with(first, second))
}

/// Pairs of a certificate: an array of two numbers below 2^32, or null.
struct Pair;

impl<'t> Kind<'t> for Pair {
    type Found = Option<(u32, u32)>;

    ghost says = { ReadsPair };

    fn read(
        alloc: Global,
        first: Token<'t>,
        reader: &mut Reader<'t>,
        depth: usize,
    ) -> Result<Option<Option<(u32, u32)>>, Unread> {
        match first {
            Token::Null => Ok(Some(None)),
            Token::BeginArray => {
                if depth == 0 {
                    return Err(Unread::Json);
                }
                match two_numbers(alloc, reader, depth - 1)? {
                    Some(pair) => Ok(Some(Some(pair))),
                    None => Ok(None),
                }
            }
            other => {
                pass_other(reader, other, depth)?;
                Ok(None)
            }
        }
    }
}

/// The pairs of a certificate, of which the first are kept.
struct Pairs;

impl<'t> Kind<'t> for Pairs {
    type Found = Vec<Option<(u32, u32)>>;

    ghost says = { SaysPairs };

    fn read(
        alloc: Global,
        first: Token<'t>,
        reader: &mut Reader<'t>,
        depth: usize,
    ) -> Result<Option<Vec<Option<(u32, u32)>>>, Unread> {
        list_up_to::<Pair>(Some(MOST_PAIRS), alloc, first, reader, depth)
    }
}

/// The prices of a certificate, of which the first are kept.
struct Prices;

impl<'t> Kind<'t> for Prices {
    type Found = Vec<u64>;

    ghost says = { SaysPrices };

    fn read(
        alloc: Global,
        first: Token<'t>,
        reader: &mut Reader<'t>,
        depth: usize,
    ) -> Result<Option<Vec<u64>>, Unread> {
        list_up_to::<Whole>(Some(MOST_PRICES), alloc, first, reader, depth)
    }
}

/// The members of a document, as far as they are read.
#[derive(Drop)]
struct Held {
    pairs: Slot<Vec<Option<(u32, u32)>>>,
    prices: Slot<Vec<u64>>,
    version: Slot<u64>,
    /// Whether it has a member of another name.
    has_others: bool,
}

impl<'t> Fields<'t> for Held {
    ghost hold = { AreHeld };

    fn take(
        &mut self,
        alloc: Global,
        key: &str,
        reader: &mut Reader<'t>,
        depth: usize,
    ) -> Result<(), Unread> {
        match key {
            "pairs" => read_into::<Pairs>(&mut self.pairs, alloc, reader, depth),
            "prices" => read_into::<Prices>(&mut self.prices, alloc, reader, depth),
            "version" => read_into::<Whole>(&mut self.version, alloc, reader, depth),
            _ => pass_member(&mut self.has_others, reader, depth),
        }
    }
}

impl Held {
    /// What is kept of the certificate, if each member is there and of its kind, and no other is.
    fn into_certificate(self) -> Option<Certificate>
        ensures { (ms : Members) → AreHeld self ms → AreInOrder ms
            → ReadsDocument (object ms) result }
    {
        let Held {
            pairs,
            prices,
            version,
            has_others,
        } = self;
        if has_others {
            return None;
        }
        let Slot::Held(version) = version else {
            return None;
        };
        let Slot::Held(prices) = prices else {
            return None;
        };
        let Slot::Held(pairs) = pairs else {
            return None;
        };
        Some(Certificate {
            version,
            prices,
            pairs,
        })
    }
}

/// Documents of certificates, of which no more prices and pairs are kept than show that there are too many.
pub struct Document;

impl<'t> Kind<'t> for Document {
    type Found = Certificate;

    ghost says = { ReadsDocument };

    fn read(
        alloc: Global,
        first: Token<'t>,
        reader: &mut Reader<'t>,
        depth: usize,
    ) -> Result<Option<Certificate>, Unread> {
        let mut held = Held {
            pairs: Slot::Missing,
            prices: Slot::Missing,
            version: Slot::Missing,
            has_others: false,
        };
        if !object_into(alloc, &mut held, first, reader, depth)? {
            return Ok(None);
        }
        Ok(held.into_certificate())
    }
}
