//! The chain of payloads behind the header, each a part of the datagram.
ghost use Rattle.std.specs.Prelude.{◌≡◌, ℕ, true, [], ◌∷◌, ◌&&◌, length, IfSome, if◌then◌else◌, None, ◌==◌};
ghost use Rattle.std.specs.Option.{option_map, ok_or};
ghost use Rattle.wire.specs.Decoding.{opened, bodies, offer_order, rekey_order};
ghost use Rattle.wire.specs.Chains.{cut, known, type_in, type_of, body_of, split_off, type_before, offered, rekeyed, lone_body};
ghost use Rattle.wire.specs.Messages.{type_number, announced};
ghost use Rattle.wire.specs.declared.message.DecodeRefusal.TheVariants as refusal;

use crate::message::DecodeRefusal;

/// The types of payloads.
// beside `Payload`, which borrows: a type is also announced before its payload is there
#[derive(Clone, Copy)]
pub(crate) enum PayloadType {
    Sa = 33,
    Nonce = 40,
    Notify = 41,
    Delete = 42,
    TsInitiator = 44,
    TsResponder = 45,
}

impl TryFrom<u8> for PayloadType {
    type Error = DecodeRefusal;

    ghost try_from_gives = { λ octet r. r ≡ ok_or (type_in octet) refusal.Chain };

    fn try_from(octet: u8) -> Result<PayloadType, DecodeRefusal> {
        match octet {
            33 => Ok(PayloadType::Sa),
            40 => Ok(PayloadType::Nonce),
            41 => Ok(PayloadType::Notify),
            42 => Ok(PayloadType::Delete),
            44 => Ok(PayloadType::TsInitiator),
            45 => Ok(PayloadType::TsResponder),
            _ => Err(DecodeRefusal::Chain),
        }
    }
}

/// The number of a type; 0 where no payload is announced.
pub(crate) fn announced(next: Option<PayloadType>) -> u8
    ensures { result ≡ announced next }
{
    next.map_or(0, |kind| kind as u8)
}

/// A payload by its type. Each case borrows the octets behind the four opening ones from the datagram.
#[derive(Clone, Copy)]
pub enum Payload<'a> {
    Sa(&'a [u8]),
    Nonce(&'a [u8]),
    TsInitiator(&'a [u8]),
    TsResponder(&'a [u8]),
    Notify(&'a [u8]),
    Delete(&'a [u8]),
}

/// What is left of a chain: the type that is announced for its first payload, and its octets.
#[derive(Clone, Copy)]
pub(crate) struct Chain<'a> {
    // as it was announced: any octet, and not only one that names a type
    pub kind: u8,
    pub octets: &'a [u8],
}

/// The bodies of an offer: SA, Nonce, TSi, TSr.
#[derive(Clone, Copy)]
pub(crate) struct Offer<'a> {
    pub sa: &'a [u8],
    pub nonce: &'a [u8],
    pub tsi: &'a [u8],
    pub tsr: &'a [u8],
}

/// Takes the four opening octets of a payload, and then its body; the chain behind it is left.
#[tactic(auto, using(crate::proofs::Openings::opened_cut), unfolding(crate::specs::Decoding::opened))]
fn open(octets: &[u8]) -> Option<(&[u8], Chain<'_>)>
    ensures { option_map cut result ≡ opened octets.now }
{
    let [kind, 0, high, low, behind @ ..] = octets else {
        return None;
    };
    let len = usize::from(u16::from_be_bytes([*high, *low])).checked_sub(4)?;
    let (body, octets) = behind.split_at_checked(len)?;
    Some((
        body,
        Chain {
            kind: *kind,
            octets,
        },
    ))
}

impl<'a> Payload<'a> {
    /// The payload of this type and body.
    fn new(kind: PayloadType, body: &'a [u8]) -> Payload<'a>
        ensures kind { type_of result ≡ type_number kind }
        ensures body { body_of result ≡ body.now }
    {
        match kind {
            PayloadType::Sa => Payload::Sa(body),
            PayloadType::Nonce => Payload::Nonce(body),
            PayloadType::Notify => Payload::Notify(body),
            PayloadType::Delete => Payload::Delete(body),
            PayloadType::TsInitiator => Payload::TsInitiator(body),
            PayloadType::TsResponder => Payload::TsResponder(body),
        }
    }
}

impl<'a> Chain<'a> {
    /// The first payload, and the chain behind it.
    fn first(self) -> Option<(Payload<'a>, Chain<'a>)>
        ensures split { option_map split_off result ≡ (if known self.entry.kind then opened self.entry.octets.now else None) }
        ensures kind { IfSome result (λ p. type_before p ≡ self.entry.kind) }
    {
        let kind = PayloadType::try_from(self.kind).ok()?;
        let (body, behind) = open(self.octets)?;
        Some((Payload::new(kind, body), behind))
    }

    /// Whether no payload is left.
    pub(crate) fn ends(self) -> bool
        ensures { result ≡ (self.entry.kind == 0 && length self.entry.octets.now == 0) }
    {
        self.kind == 0 && self.octets.is_empty()
    }

    /// The bodies of the offer that the chain consists of.
    pub(crate) fn whole_offer(self) -> Option<Offer<'a>>
        ensures { option_map offered result ≡ bodies offer_order self.entry.kind self.entry.octets.now }
    {
        // the patterns ask for the variants too, which `?` would not
        let Some((Payload::Sa(sa), behind)) = self.first() else {
            return None;
        };
        let Some((Payload::Nonce(nonce), behind)) = behind.first() else {
            return None;
        };
        let Some((Payload::TsInitiator(tsi), behind)) = behind.first() else {
            return None;
        };
        let Some((Payload::TsResponder(tsr), behind)) = behind.first() else {
            return None;
        };
        behind.ends().then_some(Offer {
            sa,
            nonce,
            tsi,
            tsr,
        })
    }

    /// The bodies of the notification and the offer that the chain consists of.
    pub(crate) fn whole_rekey(self) -> Option<(&'a [u8], Offer<'a>)>
        ensures { option_map rekeyed result ≡ bodies rekey_order self.entry.kind self.entry.octets.now }
    {
        // the pattern asks for the variant too, which `?` would not
        let Some((Payload::Notify(notify), behind)) = self.first() else {
            return None;
        };
        Some((notify, behind.whole_offer()?))
    }

    /// The payload that the chain consists of.
    pub(crate) fn lone(self) -> Option<Payload<'a>>
        ensures { (t : ℕ) → known t ≡ true → lone_body t result ≡ bodies (t ∷ []) self.entry.kind self.entry.octets.now }
    {
        let (payload, behind) = self.first()?;
        behind.ends().then_some(payload)
    }
}
