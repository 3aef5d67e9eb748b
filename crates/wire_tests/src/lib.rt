//! Examples of the message layer, each proved and then run.
#![tactic(auto)]

#[cfg(test)]
mod tests {
    use nonce::Nonce;
    use nonce::order::Exchanged;
    use nonce::order::compare::{loser, lower};
    use nonce::side::Side;
    use numbered::Numbered;
    use std::test::Fail;
    use wire::decode::decode;
    use wire::message::{Body, Message, Request};

    fn sixteen(x: u8) -> Option<Nonce> {
        Nonce::new(&[x; 16])
    }

    fn rekey(x: u8) -> Option<Message<Nonce>> {
        let nonce = sixteen(x)?;
        let body = Body::Request(Request::Rekey {
            old: 1000,
            spi: 1001,
            nonce,
        });
        Some(Message {
            initiator: 1,
            responder: 2,
            sender: Side::B,
            id: 7,
            body,
        })
    }

    fn exchanged(initiator: u8, responder: u8) -> Option<Exchanged> {
        Some(Exchanged {
            initiator: sixteen(initiator)?,
            responder: sixteen(responder)?,
        })
    }

    // A's Delete of 1000 with the Message ID 5.
    fn delete_1000() -> [u8; 40] {
        [
            1, 2, 3, 4, 5, 6, 7, 8, 9, 10, 11, 12, 13, 14, 15, 16, 0x2A, 0x20, 0x25, 0x08, 0, 0, 0,
            5, 0, 0, 0, 0x28, 0, 0, 0, 0x0C, 3, 4, 0, 1, 0, 0, 0x03, 0xE8,
        ]
    }

    #[test]
    fn reads_a_delete(rt: HostRuntime) -> Result<(), Fail> {
        let octets = delete_1000();
        let message = decode(&octets)?;
        assert_eq!(rt; message.initiator, 0x0102030405060708);
        assert_eq!(rt; message.sender, Side::A);
        assert_eq!(rt; message.id, 5);
        let Body::Request(Request::Delete { spi }) = message.body else {
            return Err(Fail::new("another message"));
        };
        assert_eq!(rt; spi, 1000);
        Ok(())
    }

    #[test]
    fn refuses_another_length(rt: HostRuntime) -> Result<(), Fail> {
        let mut octets = delete_1000();
        octets[27] = 0x27;
        let refusal = decode(&octets).err().ok_or("taken")?;
        assert_eq!(rt; refusal.number(), 40);
        Ok(())
    }

    #[test]
    fn writes_and_reads_back(rt: HostRuntime) -> Result<(), Fail> {
        let written = rekey(0x44).ok_or("no nonce")?;
        let mut out = [0xEE; 160];
        let len = written.encode(&mut out)?;
        assert!(rt; len == 144);
        assert_eq!(rt; out[144], 0xEE);
        let message = decode(&out[0..len])?;
        let Body::Request(Request::Rekey { old, spi, nonce }) = message.body else {
            return Err(Fail::new("another message"));
        };
        assert_eq!(rt; old, 1000);
        assert_eq!(rt; spi, 1001);
        assert!(rt; nonce == [0x44; 16].as_slice());
        Ok(())
    }

    #[test]
    fn a_short_buffer_stays(rt: HostRuntime) -> Result<(), Fail> {
        let message = rekey(0x44).ok_or("no nonce")?;
        let mut out = [0xEE; 143];
        let refusal = message.encode(&mut out).err().ok_or("written")?;
        assert_eq!(rt; refusal.number(), 45);
        assert!(rt; out == [0xEE; 143]);
        Ok(())
    }

    #[test]
    fn orders_nonces(rt: HostRuntime) -> Result<(), Fail> {
        let short = sixteen(0x11).ok_or("no nonce")?;
        let long = Nonce::new(&[0x11; 17]).ok_or("no nonce")?;
        assert!(rt; lower(&long, &short) == [0x11; 16].as_slice());
        Ok(())
    }

    #[test]
    fn finds_the_loser(rt: HostRuntime) -> Result<(), Fail> {
        let a = exchanged(0x55, 0x77).ok_or("no nonce")?;
        let b = exchanged(0x66, 0x44).ok_or("no nonce")?;
        assert_eq!(rt; loser(&a, &b), Side::B);
        assert_eq!(rt; loser(&b, &a), Side::A);
        assert_eq!(rt; loser(&a, &a), Side::A);
        Ok(())
    }
}
