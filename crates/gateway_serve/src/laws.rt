//! The law of the conversations, as the contract of a function that does nothing.
ghost use Rattle.std.specs.Prelude.{◌≡◌, ℕ, true, List};
ghost use Rattle.tus_session.specs.History.{State, Marked};
ghost use Rattle.gateway_serve.specs.Conversations.{Conversation, AreTalks, conversations};

/// Where the disk is known to be honest, what was given is what the history gives: the conversations are its own.
pub fn known_talks()
    ensures { (st : State) (past : List Marked) (n : ℕ) (cs : List Conversation) → AreTalks true st past n cs
        → cs ≡ conversations st past n }
{}
