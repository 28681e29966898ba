pub const TEXT: &str = "
# Nothing of this changes verifier 1, or is answered.
u 1
v1 opens
v2 > v1: change view 2
  v1 > v2: promise view 2 knows 0 accepted nothing

# Letters of clients.
c1 > v1: ask place 1
c1 > v1: decided place 1 rollback

# What only a verifier says, of an executor, and the other way round.
e0 > v1: accept view 2 place 1 rollback
e0 > v1: accepted view 2 place 1 rollback
e0 > v1: decided place 1 rollback
e0 > v1: change view 3
e0 > v1: promise view 2 knows 0 accepted nothing
v0 > v1: token 7 of batch 1 epoch 1 over 0

# Of lower views.
v1 > v1: change view 1
v1 > v1: accept view 1 place 1 rollback

# Of places before the first one.
v2 > v1: accept view 2 place 0 rollback
v2 > v1: accepted view 2 place 0 rollback
v2 > v1: decided place 0 rollback
v2 > v1: ask place 0

# Of what is known nowhere yet.
v2 > v1: ask place 1
v2 > v1: accepted view 2 place 2 rollback

# A Commit that may not come next.
v2 > v1: accept view 2 place 1 commit 2 token 7
v2 > v1: accepted view 2 place 1 commit 2 token 7
v2 > v1: decided place 1 commit 2 token 7

# A promise to one that does not lead, and a token of nothing that is open.
v2 > v1: promise view 2 knows 0 accepted nothing
e0 > v1: token 7 of batch 0 epoch 1 over 0
e0 > v1: token 7 of batch 1 epoch 0 over 0

v1 is up in view 2 knows 0
v1 has 01 56 01 01 00x7 02 00 00x4
";
