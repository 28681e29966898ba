//! What a world is: all nodes, and all letters that were ever sent, through any list of events. Definitions, and no code.
//!
//! It is built on `slots`, which says what becomes of a replica, on `client`, which says it of a client, and on
//! `events`, which lists what may happen. The layers above use the relation `WorldNext` of `specs/World.antt`, of
//! which each step of a world is to be one, and `IsReached`: the server that runs is like a world that is reached.
#![tactic(auto)]
