//! What holds of every conversation by the rules alone.
ghost use Rattle.transport_laws.specs.{HiddenLag.LagsAreHidden, KeptLag.LagsAreKept};
ghost use Rattle.transport_laws.specs.{KeptLag.PromptLivesLag, Striking.TicksAreStruck};
ghost use Rattle.transport_laws.specs.{Transfers.SizesAreAlike, Witnesses.ConversationWitness};

/// Does nothing: its contract says that a host sees nothing of the steps in the background.
#[tactic(auto, using(crate::proofs::StruckTicks::ticks_struck))]
pub fn conversation_laws()
    ensures { TicksAreStruck }
{}

/// Does nothing: its contract says that a host hears the same, and that the unit comes to the same,
/// whatever the size of a packet.
#[tactic(auto, using(crate::proofs::Transfers::sizes_alike))]
pub fn packet_laws()
    ensures { SizesAreAlike }
{}

/// Does nothing: its contract says that a host cannot tell a disk whose device is behind from one
/// that acts on each packet at once.
#[tactic(auto, using(crate::proofs::PacketsHidden::lags_hidden))]
pub fn lagging_laws()
    ensures { LagsAreHidden }
{}

/// Does nothing: its contract says that a life of a disk whose device is behind is one of a disk
/// that acts on each packet at once, and that a loss of power leaves the same: where a packet is
/// still pending, power goes in its event. The other way round, lives of a disk that acts at once
/// are lives of one whose device may be behind.
#[tactic(auto, using(crate::proofs::LagsKept::lags_kept, crate::proofs::PromptLives::lives_lag))]
pub fn lagging_lives_laws()
    ensures kept { LagsAreKept }
    ensures prompt { PromptLivesLag }
{}

/// Does nothing: its contract says that hosts and units have conversations that nothing troubles,
/// of which the laws speak.
#[tactic(auto, using(crate::proofs::Witnesses::conversation_met))]
pub fn witness_laws()
    ensures conversation { ConversationWitness }
{}
