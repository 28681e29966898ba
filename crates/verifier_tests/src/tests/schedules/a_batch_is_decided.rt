pub const TEXT: &str = "
# The leader of three has the tokens of two executors, proposes their Commit, and two acceptances
# decide it. It proposes the next one under the same lead.
u 1
v0 opens
v1 opens
v2 opens

# One token is too few, and it counts once, however often it comes.
e0 > v0: token 7 of batch 1 epoch 1 over 0
e0 > v0: token 7 of batch 1 epoch 1 over 0
e1 > v0: token 7 of batch 1 epoch 1 over 0
  v0 > v0 v1 v2: accept view 0 place 1 commit 1 token 7

# For this place it has proposed.
e2 > v0: token 7 of batch 1 epoch 1 over 0

v0 > v0: accept view 0 place 1 commit 1 token 7
  v0 > v0 v1 v2: accepted view 0 place 1 commit 1 token 7
v0 > v2: accept view 0 place 1 commit 1 token 7
  v2 > v0 v1 v2: accepted view 0 place 1 commit 1 token 7

# An acceptance counts once too.
v0 > v0: accepted view 0 place 1 commit 1 token 7
v0 > v0: accepted view 0 place 1 commit 1 token 7
v2 > v0: accepted view 0 place 1 commit 1 token 7
  v0 > v1 v2 e0 e1 e2: decided place 1 commit 1 token 7
v0 is up in view 0 knows 1

# Verifier 2 hears of both acceptances and decides by itself.
v0 > v2: accepted view 0 place 1 commit 1 token 7
v2 > v2: accepted view 0 place 1 commit 1 token 7
  v2 > v0 v1 e0 e1 e2: decided place 1 commit 1 token 7

# Verifier 1 is told.
v0 > v1: decided place 1 commit 1 token 7
v1 is up in view 0 knows 1
v2 > v1: decided place 1 commit 1 token 7
v1 is up in view 0 knows 1

# The second decree.
e0 > v0: token 8 of batch 2 epoch 1 over 7
e2 > v0: token 8 of batch 2 epoch 1 over 7
  v0 > v0 v1 v2: accept view 0 place 2 commit 2 token 8
v0 > v1: accept view 0 place 2 commit 2 token 8
  v1 > v0 v1 v2: accepted view 0 place 2 commit 2 token 8
v0 > v2: accept view 0 place 2 commit 2 token 8
  v2 > v0 v1 v2: accepted view 0 place 2 commit 2 token 8
v1 > v0: accepted view 0 place 2 commit 2 token 8
v2 > v0: accepted view 0 place 2 commit 2 token 8
  v0 > v1 v2 e0 e1 e2: decided place 2 commit 2 token 8
v0 is up in view 0 knows 2
";
