//! What follows from the definitions of a conversation alone, whatever carries it out.
#![tactic(auto)]

mod conversations;

pub use conversations::{
    conversation_laws, lagging_laws, lagging_lives_laws, packet_laws, witness_laws,
};
