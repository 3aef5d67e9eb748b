//! Nonces: 16 to 32 octets, their order, and which of two colliding SAs loses.
#![tactic(auto)]

use std::marker::Model;

pub mod both;
pub mod methods;
pub mod order;
pub mod side;
pub mod spi;

/// A nonce of 16 to 32 octets; a clause sees these. The octets behind its length are zero.
// An array and a length, a rule of the project: fixed memory and `Copy`, for which the tail has to be known.
#[derive(Clone, Copy)]
pub struct Nonce {
    octets: [u8; 32],
    len: usize,
}

impl Model for Nonce {
    ghost use Rattle.std.specs.Prelude.{ℕ, ◌-◌, List, ◌++◌, length, take, replicate};

    ghost Value = { List ℕ };

    ghost use Rattle.nonce.specs.Kept.{IsKept, fields_back};

    ghost view = { λ n. take n.len n.octets };

    ghost invariant = { IsKept };

    ghost inverse = { λ s. record { octets = s ++ replicate (32 - length s) 0; len = length s } };

    ghost inverse_ok = { fields_back };
}
