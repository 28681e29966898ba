pub const TEXT: &str = "
# One verifier and one executor: it proposes to itself, accepts, hears of that, and tells the
# executor.
u 0
v0 opens
e0 > v0: token 7 of batch 1 epoch 1 over 0
  v0 > v0: accept view 0 place 1 commit 1 token 7
v0 > v0: accept view 0 place 1 commit 1 token 7
  v0 > v0: accepted view 0 place 1 commit 1 token 7
v0 > v0: accepted view 0 place 1 commit 1 token 7
  v0 > e0: decided place 1 commit 1 token 7
v0 is up in view 0 knows 1
";
