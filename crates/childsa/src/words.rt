//! The words of a line, and what they stand for.
ghost use Rattle.std.specs.Prelude.{◌≡◌, ◌++◌, IfOk, Some, string_bytes, codes};
ghost use Rattle.nonce.specs.Nonces.{as_nonce};
ghost use Rattle.texts.specs.Hex.{from_hex};
ghost use Rattle.childsa.specs.Read.{decimal, spread, ike_spi};

use crate::wrong::{Stop, Wrong};
use nonce::Nonce;
use nonce::side::Side;
use octets::u64_at;
use std::alloc::{AllocError, Global};
use std::str::SplitWhitespace;
use texts::digits::from_hex;

/// The words of a line that are still to be read.
#[derive(Drop)]
pub(crate) struct Words<'a> {
    pub(crate) heap: Global,
    line: &'a str,
    left: SplitWhitespace<'a>,
}

impl<'a> Words<'a> {
    /// The words of a line, up to a comment.
    pub(crate) fn new(heap: Global, line: &'a str) -> Words<'a> {
        let before = line.split_once('#').map_or(line, |(before, _)| before);
        Words {
            heap,
            line: before,
            left: before.split_whitespace(),
        }
    }

    /// All words of the line, with one space between two.
    pub(crate) fn itself(&self) -> Result<String, AllocError> {
        let mut text = String::new(self.heap);
        for word in self.line.split_whitespace() {
            if !text.is_empty() {
                text.push_str(" ")?;
            }
            text.push_str(word)?;
        }
        Ok(text)
    }

    /// The next word, where one is left.
    pub(crate) fn next(&mut self) -> Option<&'a str> {
        self.left.next()
    }

    /// The line is wrong: it has this word where something else was expected.
    // never Ok; a Result, since its texts want memory: a `Stop` would need a match in the place of each `?`
    pub(crate) fn unexpected<T>(&self, word: &str, expected: &str) -> Result<T, Stop> {
        let word = word.to_string(self.heap)?;
        let expected = expected.to_string(self.heap)?;
        Err(Wrong::Unexpected { word, expected }.into())
    }

    /// No word is left.
    pub(crate) fn end(&mut self) -> Result<(), Stop> {
        match self.next() {
            Some(word) => Err(Wrong::TooMany(word.to_string(self.heap)?).into()),
            None => Ok(()),
        }
    }

    /// The next word, which stands for what is expected.
    pub(crate) fn word(&mut self, expected: &str) -> Result<&'a str, Stop> {
        self.next().try_ok_or_else(|| Ok(Wrong::Missing(expected.to_string(self.heap)?).into()))
    }

    /// What the next word stands for: it is one of those that a table lists.
    pub(crate) fn choice<T: Copy>(
        &mut self,
        expected: &str,
        table: &[(&str, T)],
    ) -> Result<T, Stop> {
        let word = self.word(expected)?;
        let Some((_, meant)) = table.iter().find(|(listed, _)| *listed == word) else {
            return self.unexpected(word, expected);
        };
        Ok(*meant)
    }

    /// The next word, which is to be this one.
    pub(crate) fn keyword(&mut self, keyword: &str) -> Result<(), Stop> {
        let expected = quoted(self.heap, keyword)?;
        self.choice(expected.as_str(), &[(keyword, ())])
    }

    /// A number of 32 bits.
    pub(crate) fn number(&mut self, expected: &str) -> Result<u32, Stop> {
        let word = self.word(expected)?;
        self.number_from(word)
    }

    /// The number of 32 bits that a word writes.
    pub(crate) fn number_from(&self, word: &str) -> Result<u32, Stop> {
        if !is_decimal(word) {
            return Err(Wrong::NotNumber(word.to_string(self.heap)?).into());
        }
        word.parse::<u32>()
            .try_map_err(|_| Ok(Wrong::TooLarge(word.to_string(self.heap)?).into()))
    }

    /// An end of the IKE SA.
    pub(crate) fn side(&mut self) -> Result<Side, Stop> {
        self.choice("`A` or `B`", &[("A", Side::A), ("B", Side::B)])
    }

    /// Octets.
    pub(crate) fn octets(&mut self, expected: &str) -> Result<Vec<u8>, Stop> {
        let word = self.word(expected)?;
        self.octets_from(word)
    }

    /// The octets that a word writes.
    pub(crate) fn octets_from(&self, word: &str) -> Result<Vec<u8>, Stop>
        ensures { IfOk result (λ v. Some v.items ≡ from_hex word.now) }
    {
        let octets = from_hex(self.heap, word)?;
        octets.try_ok_or_else(|| Ok(Wrong::NotHex(word.to_string(self.heap)?).into()))
    }

    /// An SPI of the IKE SA.
    pub(crate) fn ike_spi(&mut self, expected: &str) -> Result<u64, Stop> {
        let octets = self.octets(expected)?;
        Ok(ike_spi_of(octets.as_slice()).ok_or(Wrong::IkeSpiLength(octets.len()))?)
    }

    /// The octets of a datagram; `-` stands for none.
    pub(crate) fn datagram(&mut self) -> Result<Vec<u8>, Stop> {
        match self.word("the octets of a datagram, or `-` for none")? {
            "-" => Ok(Vec::new(self.heap)),
            word => self.octets_from(word),
        }
    }

    /// The octets that are given for a nonce, however many; `-` stands for none.
    pub(crate) fn nonce_octets(&mut self) -> Result<Vec<u8>, Stop> {
        match self.word("the octets of a nonce, or `-` for none")? {
            "-" => Ok(Vec::new(self.heap)),
            word => {
                let octets = self.octets_from(word)?;
                Ok(spread(self.heap, octets.as_slice())?)
            }
        }
    }

    /// A nonce.
    pub(crate) fn nonce(&mut self, expected: &str) -> Result<Nonce, Stop> {
        let word = self.word(expected)?;
        self.nonce_from(word)
    }

    /// The nonce that a word writes.
    pub(crate) fn nonce_from(&self, word: &str) -> Result<Nonce, Stop> {
        let octets = self.octets_from(word)?;
        Ok(nonce_of(octets.as_slice()).ok_or(Wrong::NonceLength(octets.len()))?)
    }
}

/// A word between the marks that stand around one in what is told.
fn quoted(heap: Global, word: &str) -> Result<String, AllocError>
    ensures { IfOk result (λ s. string_bytes s ≡ codes "`" ++ (word.now ++ codes "`")) }
{
    format!(in heap; "`{word}`")
}

/// Whether a word is made of decimal digits.
fn is_decimal(word: &str) -> bool
    ensures { result ≡ decimal word.now }
{
    word.bytes().all(|c| c.is_ascii_digit())
}

/// The IKE SPI of eight octets.
fn ike_spi_of(octets: &[u8]) -> Option<u64>
    ensures { result ≡ ike_spi octets.now }
{
    u64_at(octets, 0).filter(|_| octets.len() == 8)
}

/// The octets of a nonce that is written by these: one alone stands for sixteen of it.
fn spread(heap: Global, octets: &[u8]) -> Result<Vec<u8>, AllocError>
    ensures { IfOk result (λ v. v.items ≡ spread octets.now) }
{
    match octets {
        [x] => Vec::from_slice(heap, &[*x; 16]),
        _ => Vec::from_slice(heap, octets),
    }
}

/// The nonce that octets stand for: one alone stands for sixteen of it.
fn nonce_of(octets: &[u8]) -> Option<Nonce>
    ensures { result ≡ as_nonce (spread octets.now) }
{
    match octets {
        [x] => Nonce::new(&[*x; 16]),
        _ => Nonce::new(octets),
    }
}
