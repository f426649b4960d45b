// The constructors: a fresh block, plain or stream, two names as the scope document has them. The lent lists are handed one by one, as C hands them.
ghost use Rattle.std.specs.Prelude.{◌≡◌};
ghost use Rattle.ring.specs.Lists.{lists};
ghost use Rattle.block.specs.Fresh.{Lent, fresh, fresh_plain, fresh_stream, Makes};

use crate::Kcp;
use crate::acklist::AckList;
use crate::clock::Clock;
use crate::congestion::Congestion;
use crate::probe::Probe;
use crate::receiver::Receiver;
use crate::refusal::Refusal;
use crate::sender::Sender;
use crate::settings::Settings;
use crate::sizes::{ack_sizes, receive_sizes, send_sizes};
use estimator::Estimator;

impl Kcp {
    // A fresh block that flushes at this interval.
    #[tactic(auto, unfolding(crate::specs::Fresh::fresh))]
    fn construct(conv: u32, stream: bool, interval: u32) -> Kcp
        ensures { result ≡ fresh conv stream interval }
    {
        Kcp {
            settings: Settings::new(conv, stream),
            clock: Clock::new(interval),
            estimator: Estimator::new(),
            congestion: Congestion::new(),
            probe: Probe::new(),
            receiver: Receiver::new(),
            acklist: AckList::new(),
            sender: Sender::new(),
        }
    }

    // A fresh block, or refusal 15 where a lent size is outside the limits. What the lent memory holds is no fault, and is left as it is.
    #[tactic(auto, unfolding(crate::specs::Fresh::lent_sizes, crate::specs::Fresh::made_of, serial::specs::Branch::pick))]
    fn make(
        conv: u32,
        stream: bool,
        interval: u32,
        rcv_records: &[u32],
        rcv_room: &[u8],
        snd_records: &[u32],
        snd_room: &[u8],
        acks: &[u32],
        waiting: &[u8],
    ) -> Result<Kcp, Refusal>
        ensures { Makes (record { rcv = lists rcv_records.now rcv_room.now; snd = lists snd_records.now snd_room.now; acks = acks.now; waiting = waiting.now }) (fresh conv stream interval) result }
    {
        let receive = receive_sizes(rcv_records.len(), rcv_room.len());
        let send = send_sizes(snd_records.len(), snd_room.len());
        let list = ack_sizes(acks.len(), waiting.len());
        if receive && send && list {
            Ok(Kcp::construct(conv, stream, interval))
        } else {
            Err(Refusal::BadPool)
        }
    }

    // A fresh block that keeps messages apart.
    pub fn new(
        conv: u32,
        rcv_records: &[u32],
        rcv_room: &[u8],
        snd_records: &[u32],
        snd_room: &[u8],
        acks: &[u32],
        waiting: &[u8],
    ) -> Result<Kcp, Refusal>
        ensures { Makes (record { rcv = lists rcv_records.now rcv_room.now; snd = lists snd_records.now snd_room.now; acks = acks.now; waiting = waiting.now }) (fresh_plain conv) result }
    {
        Kcp::make(
            conv,
            false,
            Kcp::INTERVAL,
            rcv_records,
            rcv_room,
            snd_records,
            snd_room,
            acks,
            waiting,
        )
    }

    // A fresh block that carries a stream of bytes.
    pub fn new_stream(
        conv: u32,
        rcv_records: &[u32],
        rcv_room: &[u8],
        snd_records: &[u32],
        snd_room: &[u8],
        acks: &[u32],
        waiting: &[u8],
    ) -> Result<Kcp, Refusal>
        ensures { Makes (record { rcv = lists rcv_records.now rcv_room.now; snd = lists snd_records.now snd_room.now; acks = acks.now; waiting = waiting.now }) (fresh_stream conv) result }
    {
        Kcp::make(
            conv,
            true,
            Kcp::INTERVAL,
            rcv_records,
            rcv_room,
            snd_records,
            snd_room,
            acks,
            waiting,
        )
    }
}
