//! What a ring is: two tables of instruction words, a least size, and the laws that make it deliver.

ghost use Rattle.std.specs.Prelude.{◌≡◌};

/// A kind of ring. A ring whose laws can't be proved is no instance.
pub trait RingKind {
    ghost use Rattle.poll_close.specs.Laws.{Ring, Meaning, FitsHart, Opens, Keeps, Cleans, Goes, Stays};

    /// The tables and the least size, as a definition.
    ghost ring: { Ring };

    /// What holds of every history of such a channel.
    ghost meaning: { Meaning };

    /// The instruction words of each sender.
    fn sender() -> &'static [u32]
        ensures { result.now ≡ ring.sender };

    /// The instruction words of the receiver.
    fn receiver() -> &'static [u32]
        ensures { result.now ≡ ring.receiver };

    /// The least number of slots.
    fn least_size() -> u32
        ensures { result ≡ ring.least };

    /// The laws: the tables fit a hart, every opening has the meaning, every event keeps it, it gives
    /// clean reports, no hart is stopped, and each touches its blocks alone. It does nothing.
    fn laws()
        ensures short { FitsHart ring }
        ensures opens { Opens ring meaning }
        ensures keeps { Keeps ring meaning }
        ensures cleans { Cleans ring meaning }
        ensures goes { Goes ring meaning }
        ensures stays { Stays ring meaning };
}
