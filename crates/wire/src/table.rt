//! The octets of each payload behind its four opening octets, and what a body of such octets says.
ghost use Rattle.std.specs.Prelude.{◌≡◌};
ghost use Rattle.std.specs.List.{find};
ghost use Rattle.std.specs.Str.{bytes_eq};
ghost use Rattle.wire.specs.Exact.{ValidFailure};
ghost use Rattle.wire.specs.Payloads.{sa_body, ts_body, naming_body, failure_body, bare_failures, sa_in, named_in, failure_in};

use crate::message::Failure;
use crate::text::push;
use arrayvec::ArrayVec;
use octets::u32_at;

/// The body of an SA payload: one ESP proposal with the sender's new SPI.
#[tactic(auto, unfolding(crate::specs::Payloads::sa_body))]
pub(crate) fn sa_body(spi: u32) -> [u8; 32]
    ensures { result ≡ sa_body spi }
{
    let [a, b, c, d] = spi.to_be_bytes();
    [
        0x00, 0x00, 0x00, 0x20, 0x01, 0x03, 0x04, 0x02, a, b, c, d, 0x03, 0x00, 0x00, 0x0C, 0x01,
        0x00, 0x00, 0x14, 0x80, 0x0E, 0x00, 0x80, 0x00, 0x00, 0x00, 0x08, 0x05, 0x00, 0x00, 0x00,
    ]
}

/// The body of a traffic selector payload: all of IPv4.
#[tactic(auto, unfolding(crate::specs::Payloads::ts_body))]
pub(crate) fn ts_body() -> [u8; 20]
    ensures { result ≡ ts_body }
{
    [
        0x01, 0x00, 0x00, 0x00, 0x07, 0x00, 0x00, 0x10, 0x00, 0x00, 0xFF, 0xFF, 0x00, 0x00, 0x00,
        0x00, 0xFF, 0xFF, 0xFF, 0xFF,
    ]
}

/// What a payload names an SPI of ESP for, by the number in front of the SPI: the type of a
/// notification, or in a Delete payload how many SPIs it names.
#[derive(Clone, Copy)]
pub(crate) enum Naming {
    Rekeyed = 16393,
    NotFound = 44,
    Deleted = 1,
}

/// The body of a payload that names an SPI: ESP, SPIs of 4 octets, the number, the SPI.
#[tactic(auto, using(crate::proofs::Namings::naming_written))]
pub(crate) fn naming_body(naming: Naming, spi: u32) -> [u8; 8]
    ensures { result ≡ naming_body naming spi }
{
    let number = naming as u16;
    let [high, low] = number.to_be_bytes();
    let [a, b, c, d] = spi.to_be_bytes();
    [0x03, 0x04, high, low, a, b, c, d]
}

/// The body of an error notification, which names an SPI or none.
#[tactic(auto, unfolding(crate::specs::Payloads::failure_body))]
pub(crate) fn failure_body(failure: Failure) -> ArrayVec<u8, 8>
    ensures octets { result.items ≡ failure_body failure }
    ensures valid { ValidFailure failure }
{
    let mut body = ArrayVec::new();
    // octets of the table, and so not numbers for kinds
    match failure {
        Failure::NoProposalChosen => push(&mut body, &[0, 0, 0, 14]),
        Failure::NoAdditionalSas => push(&mut body, &[0, 0, 0, 35]),
        Failure::TemporaryFailure => push(&mut body, &[0, 0, 0, 43]),
        Failure::ChildSaNotFound { spi } => push(&mut body, &naming_body(Naming::NotFound, spi)),
    }
    body
}

/// The SPI in the body of an SA payload.
pub(crate) fn sa_in(body: &[u8]) -> Option<u32>
    ensures { result ≡ sa_in body.now }
{
    u32_at(body, 8).filter(|spi| body == sa_body(*spi).as_slice())
}

/// The SPI that a body names for this.
pub(crate) fn named_in(naming: Naming, body: &[u8]) -> Option<u32>
    ensures { result ≡ named_in naming body.now }
{
    u32_at(body, 4).filter(|spi| body == naming_body(naming, *spi).as_slice())
}

/// The failure that the body of a notification says which names no SPI.
fn bare_in(body: &[u8]) -> Option<Failure>
    ensures { result ≡ find (λ bare. bytes_eq body.now (failure_body bare)) bare_failures }
{
    [
        Failure::NoProposalChosen,
        Failure::NoAdditionalSas,
        Failure::TemporaryFailure,
    ]
    .iter()
    .find(|bare| body == failure_body(**bare).as_slice())
    .copied()
}

/// The failure that the body of a notification says.
#[tactic(auto, unfolding(crate::specs::Payloads::failure_in))]
pub(crate) fn failure_in(body: &[u8]) -> Option<Failure>
    ensures { result ≡ failure_in body.now }
{
    bare_in(body).or_else(|| named_in(Naming::NotFound, body).map(|spi| Failure::ChildSaNotFound {
        spi,
    }))
}
