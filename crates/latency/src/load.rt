//! What is offered, and when.

ghost use Rattle.std.specs.Prelude.{◌≡◌, ◌*◌, ◌/◌, ◌-◌, ◌^◌, ◌<◌, ◌≤◌, ◌↔◌, min, IfSome, IsNone};

/// How much is offered, and how fast.
#[derive(Clone, Copy)]
pub struct Load {
    /// How many publishers, 1 to 8.
    pub publishers: u32,
    /// The bytes of a message, at least 16.
    pub length: usize,
    /// How many messages each publisher offers.
    pub messages: u32,
    /// How many messages all publishers offer in a second; 0 for as many as are accepted.
    pub rate: u64,
    pub ghost some: { 0 < publishers },
    pub ghost eight: { publishers ≤ 8 },
    pub ghost whole: { 16 ≤ length },
}

impl Load {
    /// How many messages all publishers offer.
    #[tactic(auto, using(crate::proofs::Shares::eight_fit))]
    pub fn wanted(&self) -> u64
        ensures value { result ≡ self.now.publishers * self.now.messages }
        ensures few { result < 2 ^ 36 }
    {
        u64::from(self.publishers) * u64::from(self.messages)
    }

    /// When a publisher's message with this number is due, in nanoseconds after the begin; at full load no message has such
    /// a moment. A moment that would be greater than all is the greatest.
    pub fn due(&self, number: u32) -> Option<u64>
        ensures none { IsNone result ↔ (self.now.rate ≡ 0) }
        ensures moment { IfSome result (λ m. m ≡ min (number * self.now.publishers * 1000000000 / self.now.rate) (2 ^ 64 - 1)) }
    {
        if self.rate == 0 {
            return None;
        }
        let before = u64::from(number) * u64::from(self.publishers);
        let moment = u128::from(before) * 1_000_000_000 / u128::from(self.rate);
        Some(moment.min(u128::from(u64::MAX)) as u64)
    }
}
