//! Short runs over each channel.
ghost use Rattle.std.specs.Prelude.{◌≡◌};
ghost use Rattle.bottoms.specs.Bottoms.{queue_store, queue_sent, stack_store, stack_sent};
ghost use Rattle.bottoms.specs.Traces.{traced, trace_sent, trace_received};

use crate::queue::Queue;
use crate::refusal::MakeRefusal;
use crate::stack::Stack;
use crate::trace::Trace;
use channel::channel::Channel;
use channel::marker::Marker;
use channel::sent::Sent;
use nonce::side::Side;
use numbered::Numbered;
use std::test::Fail;

/// What a caller of a queue knows of a send: the datagram comes last.
fn queue_send(queue: &mut Queue, to: Side, datagram: &[u8]) -> Sent
    ensures { (result, queue_store queue.new) ≡ queue_sent (queue_store queue.old) to datagram.now }
{
    queue.send(to, datagram)
}

/// The same of a stack: it comes first.
fn stack_send(stack: &mut Stack, to: Side, datagram: &[u8]) -> Sent
    ensures { (result, stack_store stack.new) ≡ stack_sent (stack_store stack.old) to datagram.now }
{
    stack.send(to, datagram)
}

/// The same of a trace: it has the next fate, which is used.
fn trace_send(trace: &mut Trace, to: Side, datagram: &[u8]) -> Sent
    ensures { (result, traced trace.new) ≡ trace_sent (traced trace.old) to datagram.now }
{
    trace.send(to, datagram)
}

/// What a caller of a trace knows of a receive: it uses no fate.
fn trace_receive(trace: &mut Trace, at: Side, buffer: &mut [u8]) -> Option<usize>
    ensures { (result, buffer.new, traced trace.new) ≡ trace_received (traced trace.old) at buffer.old }
{
    trace.receive(at, buffer)
}

/// The datagram that comes to an end: its length and its last octet.
fn next<C: Channel>(channel: &mut C, at: Side) -> Option<(usize, u8)> {
    let mut room = [0; 256];
    let len = channel.receive(at, &mut room)?;
    let last = room.get(..len)?.last()?;
    Some((len, *last))
}

/// Whether a datagram is taken.
fn takes<C: Channel>(channel: &mut C, to: Side, datagram: &[u8]) -> bool {
    channel.send(to, datagram) == Sent::Taken
}

/// Sends single octets to B.
fn send_all<C: Channel>(channel: &mut C, octets: &[u8]) {
    for x in octets {
        channel.send(Side::B, &[*x]);
    }
}

/// Each bottom, as the callers above know it.
#[test]
fn known(rt: HostRuntime) -> Result<(), Fail> {
    let mut queue = Queue::new(32)?;
    assert_eq!(rt; queue_send(&mut queue, Side::A, b"x"), Sent::Taken);
    let mut stack = Stack::new(32)?;
    assert_eq!(rt; stack_send(&mut stack, Side::A, b""), Sent::NotTaken);
    let mut trace = Trace::new(32, Vec::from_slice(rt.alloc(), b"l")?)?;
    assert_eq!(rt; trace_send(&mut trace, Side::A, b"x"), Sent::Taken);
    assert_eq!(rt; trace_receive(&mut trace, Side::A, &mut [0; 32]), None);
    Ok(())
}

#[test]
fn order(rt: HostRuntime) -> Result<(), Fail> {
    let mut queue = Queue::new(32)?;
    send_all(&mut queue, b"abc");
    assert_eq!(rt; next(&mut queue, Side::A), None);
    assert_eq!(rt; next(&mut queue, Side::B), Some((1, b'a')));
    assert_eq!(rt; next(&mut queue, Side::B), Some((1, b'b')));
    let mut stack = Stack::new(256)?;
    send_all(&mut stack, b"abc");
    assert_eq!(rt; next(&mut stack, Side::B), Some((1, b'c')));
    assert_eq!(rt; next(&mut stack, Side::B), Some((1, b'b')));
    Ok(())
}

#[test]
fn fates(rt: HostRuntime) -> Result<(), Fail> {
    let mut trace = Trace::new(64, Vec::from_slice(rt.alloc(), b"pl2j")?)?;
    send_all(&mut trace, b"abcde");
    assert_eq!(rt; (trace.waiting(Side::A), trace.waiting(Side::B)), (0, 5));
    assert_eq!(rt; next(&mut trace, Side::B), Some((1, b'd')));
    assert_eq!(rt; next(&mut trace, Side::B), Some((1, b'a')));
    assert_eq!(rt; next(&mut trace, Side::B), Some((1, b'c')));
    assert_eq!(rt; next(&mut trace, Side::B), Some((1, b'c')));
    assert_eq!(rt; next(&mut trace, Side::B), Some((1, b'e')));
    assert_eq!(rt; next(&mut trace, Side::B), None);
    Ok(())
}

/// A full trace uses no fate, and with one place left twice is once.
#[test]
fn full(rt: HostRuntime) -> Result<(), Fail> {
    let mut trace = Trace::new(
        64,
        Vec::from_slice(rt.alloc(), b"ppppppppppppppppppppppppppppppp2lx")?,
    )?;
    send_all(&mut trace, b"abcdefghijklmnopqrstuvwxyz01234");
    assert!(rt; takes(&mut trace, Side::B, b"5"));
    assert!(rt; !takes(&mut trace, Side::B, b"6"));
    assert!(rt; takes(&mut trace, Side::A, b"7"));
    assert_eq!(rt; next(&mut trace, Side::A), None);
    assert_eq!(rt; next(&mut trace, Side::B), Some((1, b'a')));
    assert!(rt; takes(&mut trace, Side::B, b"8"));
    Ok(())
}

#[test]
fn lengths(rt: HostRuntime) -> Result<(), Fail> {
    assert_eq!(rt; Queue::new(31).err().ok_or("made")?.number(), 11);
    assert_eq!(rt; Stack::new(257).err().ok_or("made")?, MakeRefusal::Longest);
    let mut queue = Queue::new(32)?;
    assert!(rt; !takes(&mut queue, Side::A, &[]));
    assert!(rt; !takes(&mut queue, Side::A, &[7; 33]));
    assert!(rt; takes(&mut queue, Side::A, &[7; 32]));
    let mut room = [0; 31];
    assert_eq!(rt; queue.receive(Side::A, &mut room), None);
    assert_eq!(rt; next(&mut queue, Side::A), Some((32, 7)));
    Ok(())
}

/// What was sent before the marker is dropped.
#[test]
fn unmarked(rt: HostRuntime) -> Result<(), Fail> {
    let mut queue = Queue::new(64)?;
    send_all(&mut queue, b"a");
    let mut marker = Marker::over(queue);
    assert!(rt; takes(&mut marker, Side::B, b"b"));
    assert_eq!(rt; next(&mut marker, Side::B), None);
    assert_eq!(rt; next(&mut marker, Side::B), Some((1, b'b')));
    assert_eq!(rt; next(&mut marker.into_below(), Side::B), None);
    Ok(())
}

#[test]
fn two_markers(rt: HostRuntime) -> Result<(), Fail> {
    let mut outer = Marker::over(Marker::over(Queue::new(40)?));
    assert_eq!(rt; outer.longest(), 32);
    assert!(rt; !takes(&mut outer, Side::A, &[3; 33]));
    assert!(rt; takes(&mut outer, Side::A, &[3; 32]));
    assert!(rt; takes(&mut outer, Side::A, &[4]));
    assert_eq!(rt; next(&mut outer, Side::A), Some((32, 3)));
    let mut inner = outer.into_below();
    assert_eq!(rt; next(&mut inner, Side::A), Some((5, 4)));
    Ok(())
}
