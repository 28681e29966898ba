pub const TEXT: &str = "
# A verifier that comes to lead with the tokens of two executors commits, though it is in doubt.
u 1
v1 opens
e0 > v1: token 7 of batch 1 epoch 1 over 0
e1 > v1: token 7 of batch 1 epoch 1 over 0
v1 suspects
  v1 > v0 v1 v2: change view 1
v0 > v1: promise view 1 knows 0 accepted nothing
v2 > v1: promise view 1 knows 0 accepted nothing
  v1 > v0 v1 v2: accept view 1 place 1 commit 1 token 7
";
