pub const TEXT: &str = "
# The leader is lost when verifier 1 alone has accepted its proposal. Verifier 1 comes to lead, and
# has to propose the same again.
u 1
v0 opens
v1 opens
v2 opens
e0 > v0: token 7 of batch 1 epoch 1 over 0
e2 > v0: token 7 of batch 1 epoch 1 over 0
  v0 > v0 v1 v2: accept view 0 place 1 commit 1 token 7
v0 > v1: accept view 0 place 1 commit 1 token 7
  v1 > v0 v1 v2: accepted view 0 place 1 commit 1 token 7

# From here on nothing reaches verifier 0.
v1 suspects
  v1 > v0 v1 v2: change view 1
v1 > v2: change view 1
  v2 > v1: promise view 1 knows 0 accepted nothing
v1 > v1: change view 1
  v1 > v1: promise view 1 knows 0 accepted view 0 commit 1 token 7
v2 > v1: promise view 1 knows 0 accepted nothing
v1 > v1: promise view 1 knows 0 accepted view 0 commit 1 token 7
  v1 > v0 v1 v2: accept view 1 place 1 commit 1 token 7
v1 > v1: accept view 1 place 1 commit 1 token 7
  v1 > v0 v1 v2: accepted view 1 place 1 commit 1 token 7
v1 > v2: accept view 1 place 1 commit 1 token 7
  v2 > v0 v1 v2: accepted view 1 place 1 commit 1 token 7
v1 > v1: accepted view 1 place 1 commit 1 token 7
v2 > v1: accepted view 1 place 1 commit 1 token 7
  v1 > v0 v2 e0 e1 e2: decided place 1 commit 1 token 7
v1 is up in view 1 knows 1
v1 has 01 56 01 01 00x7 01 00 00x3 01 01 00x7 01 07x32

# Verifier 0 is back, and asks.
v0 opens
  v0 > v1 v2: ask place 1
v0 > v1: ask place 1
  v1 > v0: decided place 1 commit 1 token 7
v1 > v0: decided place 1 commit 1 token 7
v0 is up in view 0 knows 1
";
