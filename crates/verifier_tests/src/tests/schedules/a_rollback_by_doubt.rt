pub const TEXT: &str = "
# A verifier that comes to lead, and knows of nothing to commit, has what was executed undone. Its
# doubt is for one proposal only.
u 1
v1 opens
v2 opens
v1 suspects
  v1 > v0 v1 v2: change view 1
v1 > v1: change view 1
  v1 > v1: promise view 1 knows 0 accepted nothing
v1 > v2: change view 1
  v2 > v1: promise view 1 knows 0 accepted nothing
v1 > v1: promise view 1 knows 0 accepted nothing
v2 > v1: promise view 1 knows 0 accepted nothing
  v1 > v0 v1 v2: accept view 1 place 1 rollback
v1 > v1: accept view 1 place 1 rollback
  v1 > v0 v1 v2: accepted view 1 place 1 rollback
v1 > v2: accept view 1 place 1 rollback
  v2 > v0 v1 v2: accepted view 1 place 1 rollback
v1 > v1: accepted view 1 place 1 rollback
v2 > v1: accepted view 1 place 1 rollback
  v1 > v0 v2 e0 e1 e2: decided place 1 rollback
v1 is up in view 1 knows 1

# Epoch 2 has begun: tokens of epoch 1 count no more.
e0 > v1: token 7 of batch 1 epoch 1 over 0
e1 > v1: token 7 of batch 1 epoch 1 over 0
e0 > v1: token 8 of batch 1 epoch 2 over 0
e1 > v1: token 8 of batch 1 epoch 2 over 0
  v1 > v0 v1 v2: accept view 1 place 2 commit 1 token 8
";
