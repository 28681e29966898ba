pub const TEXT: &str = "
# Verifier 0 alone accepts its own proposal. Verifiers 1 and 2, which do not know of it, decide a
# Rollback in the next view, and the old proposal comes too late.
u 1
v0 opens
v1 opens
v2 opens
e0 > v0: token 7 of batch 1 epoch 1 over 0
e1 > v0: token 7 of batch 1 epoch 1 over 0
  v0 > v0 v1 v2: accept view 0 place 1 commit 1 token 7
v0 > v0: accept view 0 place 1 commit 1 token 7
  v0 > v0 v1 v2: accepted view 0 place 1 commit 1 token 7
v1 suspects
  v1 > v0 v1 v2: change view 1
v1 > v1: change view 1
  v1 > v1: promise view 1 knows 0 accepted nothing
v1 > v2: change view 1
  v2 > v1: promise view 1 knows 0 accepted nothing
v1 > v1: promise view 1 knows 0 accepted nothing
v2 > v1: promise view 1 knows 0 accepted nothing
  v1 > v0 v1 v2: accept view 1 place 1 rollback
v1 > v1: accept view 1 place 1 rollback
  v1 > v0 v1 v2: accepted view 1 place 1 rollback
v0 > v2: accept view 0 place 1 commit 1 token 7
v1 > v2: accept view 1 place 1 rollback
  v2 > v0 v1 v2: accepted view 1 place 1 rollback

# Acceptances of two views, and of two decrees, are counted apart.
v0 > v2: accepted view 0 place 1 commit 1 token 7
v1 > v2: accepted view 1 place 1 rollback
v2 > v2: accepted view 1 place 1 rollback
  v2 > v0 v1 e0 e1 e2: decided place 1 rollback
v2 > v0: decided place 1 rollback
v0 is up in view 0 knows 1
v0 has 01 56 00 01 00x8 00 00x3 01 00
";
