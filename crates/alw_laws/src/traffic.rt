ghost use Rattle.std.specs.Prelude.{◌≡◌, ◌+◌, ◌<◌, ◌≤◌, ◌^◌, ◌++◌, [], ◌∷◌, List};
ghost use Rattle.alw_msg.specs.Contents.{ToMemory, ToCache, content, request_in, reply_in};
ghost use Rattle.alw_laws.specs.Traffic.{IsTrafficUp, IsTrafficDown, sent, received};

use crate::carriers::Carried;
use alw_msg::{Kind, Msg};

/// What a node's messages to memory about a line come to, in the order in which they are sent.
#[derive(Clone, Copy)]
pub struct Up {
    pub rreq: u64,
    pub wreq: u64,
    pub update: u64,
    pub ackc: u64,
    /// The values in REPM and UPDATE.
    pub carried: Carried,
    /// An ACKC stands behind each REPM.
    pub repm_is_answered: bool,
    /// No REPM stands behind a request or an ACKC.
    pub repm_is_first: bool,
}

impl Up {
    /// Of no message.
    pub const NONE: Up = Up {
        rreq: 0,
        wreq: 0,
        update: 0,
        ackc: 0,
        carried: Carried::Nothing,
        repm_is_answered: true,
        repm_is_first: true,
    };

    /// One more message stands behind the others, unless it is one to a cache.
    pub fn gains(&mut self, msg: &Msg)
        requires { sent self.old < 2 ^ 63 }
        ensures few { sent self.new ≤ sent self.old + 1 }
        ensures sums { (said : List ToMemory) → IsTrafficUp self.old said → IsTrafficUp self.new (said ++ request_in (content msg.now)) }
    {
        match msg.kind {
            Kind::RREQ => self.rreq += 1,
            Kind::WREQ => self.wreq += 1,
            Kind::REPM => {
                self.carried = self.carried.and(Carried::One(msg.body));
                self.repm_is_answered = false;
                self.repm_is_first &= self.rreq + self.wreq + self.ackc == 0;
            }
            Kind::UPDATE => {
                self.update += 1;
                self.carried = self.carried.and(Carried::One(msg.body));
            }
            Kind::ACKC => {
                self.ackc += 1;
                self.repm_is_answered = true;
            }
            Kind::RDATA | Kind::WDATA | Kind::INV | Kind::BUSY => {}
        }
    }
}

/// What the messages to a node's cache about a line come to, in the order in which they arrive.
#[derive(Clone, Copy)]
pub struct Down {
    pub rdata: u64,
    pub wdata: u64,
    pub inv: u64,
    pub busy: u64,
    /// The values in WDATA.
    pub carried: Carried,
    /// An INV stands behind each RDATA.
    pub rdata_is_recalled: bool,
    /// An INV stands behind each WDATA.
    pub wdata_is_recalled: bool,
    /// No RDATA or WDATA stands behind an INV.
    pub data_is_first: bool,
}

impl Down {
    /// Of no message.
    pub const NONE: Down = Down {
        rdata: 0,
        wdata: 0,
        inv: 0,
        busy: 0,
        carried: Carried::Nothing,
        rdata_is_recalled: true,
        wdata_is_recalled: true,
        data_is_first: true,
    };

    /// One more message stands behind the others, unless it is one to memory.
    pub fn gains(&mut self, msg: &Msg)
        requires { received self.old < 2 ^ 63 }
        ensures few { received self.new ≤ received self.old + 1 }
        ensures sums { (said : List ToCache) → IsTrafficDown self.old said → IsTrafficDown self.new (said ++ reply_in (content msg.now)) }
    {
        match msg.kind {
            Kind::RDATA => {
                self.rdata += 1;
                self.rdata_is_recalled = false;
                self.data_is_first &= self.inv == 0;
            }
            Kind::WDATA => {
                self.wdata += 1;
                self.carried = self.carried.and(Carried::One(msg.body));
                self.wdata_is_recalled = false;
                self.data_is_first &= self.inv == 0;
            }
            Kind::INV => {
                self.inv += 1;
                self.rdata_is_recalled = true;
                self.wdata_is_recalled = true;
            }
            Kind::BUSY => self.busy += 1,
            Kind::RREQ | Kind::WREQ | Kind::REPM | Kind::UPDATE | Kind::ACKC => {}
        }
    }
}
