pub const TEXT: &str = "
# Of five verifiers two may be lost: three tokens, three promises and three acceptances are enough.
u 2
v0 opens
v2 opens
v3 opens
v4 opens
e0 > v0: token 7 of batch 1 epoch 1 over 0
e1 > v0: token 7 of batch 1 epoch 1 over 0
e4 > v0: token 7 of batch 1 epoch 1 over 0
  v0 > v0 v1 v2 v3 v4: accept view 0 place 1 commit 1 token 7
v0 > v2: accept view 0 place 1 commit 1 token 7
  v2 > v0 v1 v2 v3 v4: accepted view 0 place 1 commit 1 token 7

# Verifiers 0 and 1 are lost.
v3 suspects
  v3 > v0 v1 v2 v3 v4: change view 3
v3 > v2: change view 3
  v2 > v3: promise view 3 knows 0 accepted view 0 commit 1 token 7
v3 > v3: change view 3
  v3 > v3: promise view 3 knows 0 accepted nothing
v3 > v4: change view 3
  v4 > v3: promise view 3 knows 0 accepted nothing
v4 > v3: promise view 3 knows 0 accepted nothing
v3 > v3: promise view 3 knows 0 accepted nothing
v2 > v3: promise view 3 knows 0 accepted view 0 commit 1 token 7
  v3 > v0 v1 v2 v3 v4: accept view 3 place 1 commit 1 token 7
v3 > v2: accept view 3 place 1 commit 1 token 7
  v2 > v0 v1 v2 v3 v4: accepted view 3 place 1 commit 1 token 7
v3 > v3: accept view 3 place 1 commit 1 token 7
  v3 > v0 v1 v2 v3 v4: accepted view 3 place 1 commit 1 token 7
v3 > v4: accept view 3 place 1 commit 1 token 7
  v4 > v0 v1 v2 v3 v4: accepted view 3 place 1 commit 1 token 7
v2 > v3: accepted view 3 place 1 commit 1 token 7
v3 > v3: accepted view 3 place 1 commit 1 token 7
v4 > v3: accepted view 3 place 1 commit 1 token 7
  v3 > v0 v1 v2 v4 e0 e1 e2 e3 e4: decided place 1 commit 1 token 7
v3 is up in view 3 knows 1
";
