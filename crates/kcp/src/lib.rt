// The face of the port: every synchronous public call of the Rust's `Kcp`, under its name, in the order of its source. Each is the call of a crate
// below, with the same contract: for all inputs it says the answer, the block and every lent number and byte afterwards, and requires nothing.
// The block is a plain value, and what it keeps stands in lent memory: records and room of the receive side, records and room of the sending side, the ack
// list, and the bytes that wait. get_conv, set_conv and get_sn, which read and write a header, are the module `header`.
// Functions beside the methods of `Kcp` (block): the face is named by README and docs/READING.md, and shows each call's promise in one place.
#![tactic(auto)]

mod header;

ghost use Rattle.std.specs.Prelude.{◌≡◌, ◌+◌};
ghost use Rattle.serial.specs.Branch.{pick};
ghost use Rattle.ring.specs.Lists.{lists};
ghost use Rattle.snd_ring.specs.Store.{store_of};
ghost use Rattle.block.specs.Fresh.{Lent, fresh_plain, fresh_stream, Makes};
ghost use Rattle.block.specs.Setters.{MtuSet, set_interval, set_nodelay, set_rx_minrto, set_fast_resend, set_maximum_resend_times, input_conv, set_conv};
ghost use Rattle.receive.specs.Fits.{receive_fits};
ghost use Rattle.packing.specs.FlushAck.{writing};
ghost use Rattle.kcp_receive.specs.Calls.{Promised, move_buf_of, Peeked, Receives, set_wndsize_of, wndsize_number};
ghost use Rattle.kcp_send.specs.Send.{Sends};
ghost use Rattle.kcp_input.specs.Input.{Inputs};
ghost use Rattle.kcp_flush.specs.Calls.{FlushesAck, Flushes, Updates, Checks};

use block::Kcp;
use block::refusal::Refusal;
use block::set::Set;
use input::Outcome;
use kcp_receive::Received;
use kcp_send::Sent;
use output::Out;

// ---- making a block

// A fresh block that keeps messages apart, or 15 where a lent size is outside the limits.
pub fn new(
    conv: u32,
    rcv_records: &[u32],
    rcv_room: &[u8],
    snd_records: &[u32],
    snd_room: &[u8],
    acks: &[u32],
    waiting: &[u8],
) -> Result<Kcp, Refusal>
    ensures { Makes (record { rcv = lists rcv_records.now rcv_room.now; snd = lists snd_records.now snd_room.now; acks = acks.now; waiting = waiting.now }) (fresh_plain conv) result }
{
    Kcp::new(
        conv,
        rcv_records,
        rcv_room,
        snd_records,
        snd_room,
        acks,
        waiting,
    )
}

// A fresh block that carries a stream of bytes, or 15.
pub fn new_stream(
    conv: u32,
    rcv_records: &[u32],
    rcv_room: &[u8],
    snd_records: &[u32],
    snd_room: &[u8],
    acks: &[u32],
    waiting: &[u8],
) -> Result<Kcp, Refusal>
    ensures { Makes (record { rcv = lists rcv_records.now rcv_room.now; snd = lists snd_records.now snd_room.now; acks = acks.now; waiting = waiting.now }) (fresh_stream conv) result }
{
    Kcp::new_stream(
        conv,
        rcv_records,
        rcv_room,
        snd_records,
        snd_room,
        acks,
        waiting,
    )
}

// ---- receiving

// Moves held segments to the queue. Refused by 15.
pub fn move_buf(block: Kcp, records: &[u32], room: &[u8]) -> Set
    ensures { Promised (move_buf_of block (lists records.now room.now))
        (pick (receive_fits block (lists records.now room.now)) 0 15) result }
{
    kcp_receive::move_buf(block, records, room)
}

// Hands out the message at the front of the queue. Refused by 15, 5, 6 or 7.
pub fn recv(block: Kcp, records: &[u32], room: &[u8], buf: &mut [u8]) -> Received
    ensures { Receives block (lists records.now room.now) buf.old
        (record { block = result.block; answer = result.answer; buf = buf.new }) }
{
    kcp_receive::recv(block, records, room, buf)
}

// The length of that message. Refused by 15, 5 or 6.
pub fn peeksize(block: Kcp, records: &[u32], room: &[u8]) -> Result<usize, Refusal>
    ensures { Peeked block (lists records.now room.now) result }
{
    kcp_receive::peeksize(block, records, room)
}

// ---- sending

// Queues the bytes. Refused by 15, 8 or 12.
pub fn send(block: Kcp, records: &mut [u32], room: &mut [u8], bytes: &[u8]) -> Sent
    ensures { Sends block (lists records.old room.old) bytes.now
        (record { block = result.block; answer = result.answer; store = store_of 8 (lists records.new room.new) }) }
{
    kcp_send::send(block, records, room, bytes)
}

// ---- the conversation

// Has the next input's conv adopted.
pub fn input_conv(block: Kcp) -> Kcp
    ensures { result ≡ input_conv block }
{
    block.input_conv()
}

// Whether the next input's conv is awaited.
pub fn waiting_conv(block: Kcp) -> bool
    ensures { result ≡ block.settings.input_conv }
{
    block.waiting_conv()
}

// Sets the conversation.
pub fn set_conv(block: Kcp, conv: u32) -> Kcp
    ensures { result ≡ set_conv block conv }
{
    block.set_conv(conv)
}

// The conversation.
pub fn conv(block: Kcp) -> u32
    ensures { result ≡ block.settings.conv }
{
    block.conv()
}

// ---- what comes in

// One datagram. Refused by 15, 11, 1, 2, 3 or 4.
pub fn input(
    block: Kcp,
    rcv_records: &mut [u32],
    rcv_room: &mut [u8],
    snd_records: &mut [u32],
    snd_room: &[u8],
    acks: &mut [u32],
    waiting: &[u8],
    datagram: &[u8],
) -> Outcome
    ensures { Inputs block (lists rcv_records.old rcv_room.old) acks.old waiting.now (lists snd_records.old snd_room.now) datagram.now
        (record { block = result.block; answer = result.answer; skipped = result.skipped; rcv = lists rcv_records.new rcv_room.new; acks = acks.new; snd = store_of 8 (lists snd_records.new snd_room.now) }) }
{
    kcp_input::input(
        block,
        rcv_records,
        rcv_room,
        snd_records,
        snd_room,
        acks,
        waiting,
        datagram,
    )
}

// ---- settings

// How long until the next update. Refused by 15.
pub fn check(block: Kcp, current: u32, records: &[u32], room: &[u8]) -> Result<u32, Refusal>
    ensures { Checks block (lists records.now room.now) current result }
{
    kcp_flush::check(block, current, records, room)
}

// Sets the mtu, and mss with it. Refused by 10.
pub fn set_mtu(block: Kcp, mtu: usize) -> Set
    ensures { MtuSet block mtu result }
{
    block.set_mtu(mtu)
}

// The most bytes of a datagram.
pub fn mtu(block: Kcp) -> usize
    ensures { result ≡ block.settings.mtu }
{
    block.mtu()
}

// Sets the interval.
pub fn set_interval(block: Kcp, interval: u32) -> Kcp
    ensures { result ≡ set_interval block interval }
{
    block.set_interval(interval)
}

// Sets nodelay, the interval, fastresend and nocwnd.
pub fn set_nodelay(block: Kcp, nodelay: bool, interval: i32, resend: i32, nc: bool) -> Kcp
    ensures { result ≡ set_nodelay block nodelay interval resend nc }
{
    block.set_nodelay(nodelay, interval, resend, nc)
}

// Sets both windows. Refused by 15 or 14.
pub fn set_wndsize(block: Kcp, sndwnd: u16, rcvwnd: u16, records: &[u32], room: &[u8]) -> Set
    ensures { Promised (set_wndsize_of block (lists records.now room.now) sndwnd rcvwnd)
        (wndsize_number block (lists records.now room.now) rcvwnd) result }
{
    kcp_receive::set_wndsize(block, sndwnd, rcvwnd, records, room)
}

// The send window.
pub fn snd_wnd(block: Kcp) -> u16
    ensures { result ≡ block.congestion.snd_wnd }
{
    block.snd_wnd()
}

// The receive window.
pub fn rcv_wnd(block: Kcp) -> u16
    ensures { result ≡ block.receiver.rcv_wnd }
{
    block.rcv_wnd()
}

// How many segments are in flight or wait to be sent.
pub fn wait_snd(block: Kcp) -> usize
    ensures { result ≡ block.sender.ring.flying + block.sender.ring.unsent }
{
    block.wait_snd()
}

// The peer's window.
pub fn rmt_wnd(block: Kcp) -> u16
    ensures { result ≡ block.congestion.rmt_wnd }
{
    block.rmt_wnd()
}

// Sets the least timeout.
pub fn set_rx_minrto(block: Kcp, rto: u32) -> Kcp
    ensures { result ≡ set_rx_minrto block rto }
{
    block.set_rx_minrto(rto)
}

// Sets how many acks of later segments have a segment resent.
pub fn set_fast_resend(block: Kcp, fr: u32) -> Kcp
    ensures { result ≡ set_fast_resend block fr }
{
    block.set_fast_resend(fr)
}

// A header's bytes.
pub fn header_len() -> usize
    ensures { result ≡ 24 }
{
    Kcp::header_len()
}

// Whether the block was made as a stream.
pub fn is_stream(block: Kcp) -> bool
    ensures { result ≡ block.settings.stream }
{
    block.is_stream()
}

// The most bytes of a payload.
pub fn mss(block: Kcp) -> usize
    ensures { result ≡ block.settings.mss }
{
    block.mss()
}

// Sets after how many transmissions of one segment the link is dead.
pub fn set_maximum_resend_times(block: Kcp, dead_link: u32) -> Kcp
    ensures { result ≡ set_maximum_resend_times block dead_link }
{
    block.set_maximum_resend_times(dead_link)
}

// Whether the link is dead.
pub fn is_dead_link(block: Kcp) -> bool
    ensures { result ≡ block.sender.dead }
{
    block.is_dead_link()
}

// ---- what goes out

// Puts the acks out. Refused by 15, 9 or 13.
pub fn flush_ack(
    block: Kcp,
    acks: &[u32],
    waiting: &mut [u8],
    out: &mut [u8],
    lengths: &mut [u16],
) -> Out
    ensures { FlushesAck block acks.now (writing waiting.old out.old lengths.old)
        (record { block = result.block; answer = result.answer; datagrams = result.datagrams; written = writing waiting.new out.new lengths.new }) }
{
    kcp_flush::flush_ack(block, acks, waiting, out, lengths)
}

// Puts out all that is to go. Refused by 15, 9 or 13.
pub fn flush(
    block: Kcp,
    records: &mut [u32],
    room: &[u8],
    acks: &[u32],
    waiting: &[u8],
    out: &mut [u8],
    lengths: &mut [u16],
) -> Out
    ensures { Flushes block (lists records.old room.now) acks.now (writing waiting.now out.old lengths.old)
        (record {
          out = record { block = result.block; answer = result.answer; datagrams = result.datagrams; written = writing waiting.now out.new lengths.new };
          store = store_of 8 (lists records.new room.now);
        }) }
{
    kcp_flush::flush(block, records, room, acks, waiting, out, lengths)
}

// Sets the clock, and flushes where a flush is due. Refused by 15 or 13.
pub fn update(
    block: Kcp,
    current: u32,
    records: &mut [u32],
    room: &[u8],
    acks: &[u32],
    waiting: &[u8],
    out: &mut [u8],
    lengths: &mut [u16],
) -> Out
    ensures { Updates block (lists records.old room.now) acks.now (writing waiting.now out.old lengths.old) current
        (record {
          out = record { block = result.block; answer = result.answer; datagrams = result.datagrams; written = writing waiting.now out.new lengths.new };
          store = store_of 8 (lists records.new room.now);
        }) }
{
    kcp_flush::update(block, current, records, room, acks, waiting, out, lengths)
}
