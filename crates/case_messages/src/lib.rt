//! The messages that cases of the exchange's calls name: a bid request, campaigns, and the commands of messages.
//!
//! The code owes safety, and that what it gives may be asked of an exchange.
#![tactic(auto)]

ghost use Rattle.std.specs.Prelude.{IfOk, IfSome, IsTrue};
ghost use Rattle.auction_core.specs.Draft.{is_valid_command};

use address_keys::Keys;
use case_lines::kept;
use command_read::{CommandFault, read_command};
use http_wire::Message;
use plain_exchange::Command;
use rtb_num::Txt;
use std::alloc::{AllocError, Global};

const SHOES: &[u8] =
    b"{\"seat\":\"s1\",\"adomain\":\"shoes.example\",\"w\":300,\"h\":250,\"secure\":1,\"bid\":2.50,\"budget\":10,\"adm\":\"<p>${AUCTION_PRICE}</p>\",\"crid\":\"c1\",\"target\":[[{\"attr\":\"domain\",\"in\":[\"news.example\"]}]]}";

const ELSEWHERE: &[u8] =
    b"{\"seat\":\"s1\",\"adomain\":\"shoes.example\",\"w\":300,\"h\":250,\"secure\":1,\"bid\":2.50,\"budget\":10,\"adm\":\"<p>${AUCTION_PRICE}</p>\",\"crid\":\"c1\",\"target\":[[{\"attr\":\"domain\",\"in\":[\"other.example\"]}]]}";

const CARS: &[u8] =
    b"{\"seat\":\"s2\",\"adomain\":\"cars.example\",\"w\":300,\"h\":250,\"secure\":1,\"bid\":1.00,\"budget\":10,\"adm\":\"B\",\"crid\":\"c2\"}";

const HATS: &[u8] =
    b"{\"seat\":\"s3\",\"adomain\":\"hats.example\",\"w\":300,\"h\":250,\"secure\":1,\"bid\":3.00,\"budget\":10,\"adm\":\"C\",\"crid\":\"c3\"}";

/// The bid request of each case: one impression on news.example, from 0.30 on.
pub const REQUEST: &[u8] =
    b"{\"id\":\"b1\",\"imp\":[{\"id\":\"1\",\"bidfloor\":0.30,\"banner\":{\"w\":300,\"h\":250}}],\"site\":{\"domain\":\"news.example\"}}";

/// The campaign of that name; nothing where there is none.
///
/// `shoes` want news.example for 2.50, and `elsewhere` the same on other.example; `cars` bid 1.00 on all sites, and
/// `hats` 3.00.
pub fn campaign_named(name: &[u8]) -> &'static [u8] {
    if name == b"shoes".as_slice() {
        return SHOES;
    }
    if name == b"elsewhere".as_slice() {
        return ELSEWHERE;
    }
    if name == b"cars".as_slice() {
        return CARS;
    }
    if name == b"hats".as_slice() {
        return HATS;
    }
    &[]
}

/// The command that a message to the target asks for; none where it is refused.
pub fn command_of(alloc: Global, target: &[u8], body: &[u8]) -> Result<Option<Command>, AllocError>
    ensures valid { IfOk result (λ r. IfSome r (λ c. IsTrue (is_valid_command c))) }
{
    let message = message_of(alloc, target, body)?;
    let keys = Keys::none();
    let command = read(alloc, &keys, &message);
    drop(keys);
    drop(message);
    command
}

#[tactic(auto, using(crate::proofs::Valid::valid_as_read))]
fn read(alloc: Global, keys: &Keys, message: &Message) -> Result<Option<Command>, AllocError>
    ensures valid { IfOk result (λ r. IfSome r (λ c. IsTrue (is_valid_command c))) }
{
    match read_command(alloc, keys, message) {
        Ok(command) => Ok(Some(command)),
        Err(CommandFault::Memory) => Err(AllocError),
        Err(refused) => {
            drop(refused);
            Ok(None)
        }
    }
}

fn message_of(alloc: Global, target: &[u8], body: &[u8]) -> Result<Message, AllocError> {
    let mut message = Message {
        method: Txt::new(alloc),
        target: Txt::new(alloc),
        body: Txt::new(alloc),
        closes: false,
    };
    let filled = fill(&mut message, target, body);
    kept(message, filled)
}

fn fill(message: &mut Message, target: &[u8], body: &[u8]) -> Result<(), AllocError> {
    message.method.extend(b"POST")?;
    message.target.extend(target)?;
    message.body.extend(body)
}
