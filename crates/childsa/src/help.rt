//! The commands in short.
use crate::words::Words;
use crate::wrong::Stop;

const TEXT: &str = "\
decode HEX           the message that these octets are, or the number of the check that they fail; - is no octets
encode MESSAGE       the octets of a message
lower NONCE NONCE    the lower of two nonces
loser NI NR NI NR    whose new SA loses, A's or B's, by the nonces of A's exchange and then of B's
book KIND BOOK       starts a book with no rows; KIND is ordered or table, and BOOK is A or B
put BOOK ROW         adds a row: done, or refused 60 (reserved), 61 (present) or 62 (full)
read BOOK OWN        the row of an own SPI, or refused 63 (absent)
write BOOK ROW       puts a row into the place of the one that has its own SPI: done, or refused 63
drop BOOK OWN        removes the row of an own SPI: done, or refused 63
find BOOK PEER       the lowest own SPI of a row that has this peer SPI and is not Opening, or none
next BOOK OWN        the lowest own SPI above this one, or none
rows BOOK            how many rows there are, and how many there can be
audit                the first row of A, then of B, that has no mirror in the other book, or that all have
channel BOTTOM       makes the channel, and says its longest datagram; marker behind it, up to three times, adds layers
mark                 puts one marker more over the channel; what waits there stays unmarked, and a receive drops it
unmark               takes the highest marker off the channel
send END HEX         sends a datagram to A or B: taken, or not taken; - is no octets
receive END          the datagram that comes to A or B, or nothing
receive END N        the same into a buffer of N octets, 0 to 256
make CHANNEL MAKING  makes two ends, A and B, over a channel of their own, and with books of their own: 0, or 10 or 11
A CALL, B CALL       a call of an end, and the number of its answer
round N OCTETS       a delivery to A and then one to B, N times, with this nonce for replies
books                the books of the two ends, and what an audit of them finds
ends                 a line for each end: its numbers, and its outstanding request
ladder               the messages between the two ends so far, as a picture
help                 these lines
MESSAGE is           ike SPI SPI A|B request ID REQUEST, or ike SPI SPI A|B response ID RESPONSE
REQUEST is           create spi N nonce NONCE, rekey old N spi N nonce NONCE, delete spi N, or empty
RESPONSE is          new spi N nonce NONCE, notify 14, notify 35, notify 43, notify 44 spi N, delete spi N, or empty
ROW is               row OWN PEER STATE BEGAN parent OWN PEER ni NONCE nr NONCE; STATE is 1 to 5, BEGAN 0 or 1, - is no nonce
BOTTOM is            queue N, stack N or trace N FATES, with N octets at the most; FATES are letters, p, l, 2 or j, or - for none
CHANNEL is           a BOTTOM, and marker behind it up to three times
MAKING is            ids ID ID spis N N ike HEX HEX books KIND KIND: first Message IDs, first own SPIs, IKE SPIs and books, of A and B
CALL is              create OCTETS, rekey OWN OCTETS, delete OWN, check, resend, or deliver OCTETS
OCTETS is            a nonce of any length, for an end refuses a wrong one; one octet alone stands for sixteen of it, - is none
NONCE is             16 to 32 octets in hexadecimal digits; one octet alone stands for sixteen of it
# starts a comment";

/// `help`: the commands, with a short line for each.
pub(crate) fn help(words: &mut Words<'_>) -> Result<String, Stop> {
    words.end()?;
    Ok(TEXT.to_string(words.heap)?)
}
