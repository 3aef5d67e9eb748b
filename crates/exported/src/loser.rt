//! The loser of a collision, for C.
ghost use Rattle.std.specs.Prelude.{◌≡◌};
ghost use Rattle.exported.specs.Losers.{exchanged_in, loser_told};

use crate::record::side_number;
use nonce::Nonce;
use nonce::order::Exchanged;
use nonce::order::compare::loser;

/// What `childsa_loser` answers where a nonce has not 16 to 32 octets.
const NONCE_LENGTH: u16 = 20;

/// The nonces of one exchange, the initiator's and the responder's.
fn exchanged(initiator: &[u8], responder: &[u8]) -> Option<Exchanged>
    ensures { result ≡ exchanged_in initiator.now responder.now }
{
    Some(Exchanged {
        initiator: Nonce::new(initiator)?,
        responder: Nonce::new(responder)?,
    })
}

/// Whose new SA loses, where A and B rekeyed one SA at once with these nonces: 0 for A, 1 for B; or 20 where a nonce has not
/// 16 to 32 octets.
#[unsafe(no_mangle)]
pub extern "C" fn childsa_loser(
    initiator_of_a: &[u8],
    responder_of_a: &[u8],
    initiator_of_b: &[u8],
    responder_of_b: &[u8],
) -> u16
    ensures { result ≡ loser_told initiator_of_a.now responder_of_a.now initiator_of_b.now responder_of_b.now }
{
    let (Some(a), Some(b)) = (
        exchanged(initiator_of_a, responder_of_a),
        exchanged(initiator_of_b, responder_of_b),
    ) else {
        return NONCE_LENGTH;
    };
    u16::from(side_number(loser(&a, &b)))
}
