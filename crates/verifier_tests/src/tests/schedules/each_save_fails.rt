pub const TEXT: &str = "
# Each input of verifier 1 that saves meets a save that fails: no letter leaves, the verifier is
# stopped with its old record, and it goes on from that once it is opened again.
u 1
v1 opens

# Accept.
v1 fails its next save
v0 > v1: accept view 0 place 1 commit 1 token 7
  stopped
v1 is stopped
v1 suspects
  stopped
v1 has 01 56 01 01 00x8 00 00x4
v1 opens
  v1 > v0 v2: ask place 1
v0 > v1: accept view 0 place 1 commit 1 token 7
  v1 > v0 v1 v2: accepted view 0 place 1 commit 1 token 7

# Suspect.
v1 fails its next save
v1 suspects
  stopped
v1 has 01 56 01 01 00x8 01 00x8 01 00x7 01 07x32 00x4
v1 opens
  v1 > v0 v2: ask place 1
v1 is up in view 0 knows 0
v1 suspects
  v1 > v0 v1 v2: change view 1

# No save fails where nothing is saved.
v1 fails its next save
v1 > v1: change view 1
  v1 > v1: promise view 1 knows 0 accepted view 0 commit 1 token 7
v2 > v1: promise view 1 knows 0 accepted nothing
v1 > v1: promise view 1 knows 0 accepted view 0 commit 1 token 7
  v1 > v0 v1 v2: accept view 1 place 1 commit 1 token 7

# Accept of a higher view. The letters that left before are still under way.
v1 > v1: accept view 1 place 1 commit 1 token 7
  stopped
v1 opens
  v1 > v0 v2: ask place 1
v1 > v1: accept view 1 place 1 commit 1 token 7
  v1 > v0 v1 v2: accepted view 1 place 1 commit 1 token 7

# The acceptance that decides.
v1 > v1: accepted view 1 place 1 commit 1 token 7
v1 fails its next save
v2 > v1: accepted view 1 place 1 commit 1 token 7
  stopped
v1 opens
  v1 > v0 v2: ask place 1
v2 > v1: accepted view 1 place 1 commit 1 token 7
v1 > v1: accepted view 1 place 1 commit 1 token 7
  v1 > v0 v2 e0 e1 e2: decided place 1 commit 1 token 7

# Change, and Decided.
v1 fails its next save
v2 > v1: change view 2
  stopped
v1 opens
  v1 > v0 v2: ask place 2
v1 is up in view 1 knows 1
v1 fails its next save
v0 > v1: decided place 2 rollback
  stopped
v1 opens
  v1 > v0 v2: ask place 2
v0 > v1: decided place 2 rollback
v1 is up in view 1 knows 2
";
