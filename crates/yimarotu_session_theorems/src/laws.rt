//! What holds of a session with a network after every list of events and steps.
ghost use Rattle.yimarotu_session_theorems.specs.NetworkLaws.{SessionsPlayCalls};
ghost use Rattle.yimarotu_session_theorems.specs.NetworkPlaces.{NothingIsLeftAhead};

/// What happened to the resolver of a session is a list of events of its calls, as promised of them: calls start and
/// are dropped as the session's events tell, and go on with what the pool told, or with its refusal. Responses are what
/// octets spell that came before to the session and were believed; and the pool has the servers that the session was told
/// of. What a look-up came to is what the call came to that was begun last under its number.
pub fn sessions_play_calls()
    ensures { SessionsPlayCalls }
{}

/// Nothing is asked ahead of a look-up that was announced, or is not there, nor is anything kept of it.
pub fn nothing_is_left_ahead()
    ensures { NothingIsLeftAhead }
{}
