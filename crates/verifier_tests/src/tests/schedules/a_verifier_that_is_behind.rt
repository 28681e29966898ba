pub const TEXT: &str = "
# What verifier 2 hears is of later places: it asks for what it lacks. Where it knows the place it
# tells what was decided there.
u 1
v0 opens
v2 opens
v1 > v0: decided place 1 commit 1 token 7
v1 > v0: decided place 2 commit 2 token 8
v0 > v2: accept view 0 place 3 rollback
  v2 > v0: ask place 1
v0 > v2: decided place 2 commit 2 token 8
  v2 > v0: ask place 1
v2 > v0: ask place 1
  v0 > v2: decided place 1 commit 1 token 7
  v0 > v2: decided place 2 commit 2 token 8
v0 > v2: decided place 1 commit 1 token 7
v0 > v2: decided place 2 commit 2 token 8
v2 is up in view 0 knows 2
v0 > v2: accept view 0 place 3 rollback
  v2 > v0 v1 v2: accepted view 0 place 3 rollback

# An old proposal.
v1 > v2: accept view 1 place 1 rollback
  v2 > v1: decided place 1 commit 1 token 7
v2 is up in view 0 knows 2

# An executor asks.
e1 > v2: ask place 2
  v2 > e1: decided place 2 commit 2 token 8
e1 > v2: ask place 3
e1 > v2: ask place 0
";
