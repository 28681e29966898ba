pub const TEXT: &str = "
# The executors are a batch ahead: their tokens of batch 2 are kept, and lead to a proposal as soon
# as batch 1 is decided.
u 1
v0 opens
e0 > v0: token 8 of batch 2 epoch 1 over 7
e1 > v0: token 8 of batch 2 epoch 1 over 7
v1 > v0: accepted view 0 place 1 commit 1 token 7
v2 > v0: accepted view 0 place 1 commit 1 token 7
  v0 > v1 v2 e0 e1 e2: decided place 1 commit 1 token 7
  v0 > v0 v1 v2: accept view 0 place 2 commit 2 token 8

# The same where it is told that batch 2 is decided, and has tokens of batch 3. Those of executor 1
# are over another state, so they do not count.
e0 > v0: token 9 of batch 3 epoch 1 over 8
e1 > v0: token 9 of batch 3 epoch 1 over 6
e2 > v0: token 9 of batch 3 epoch 1 over 8
v1 > v0: decided place 2 commit 2 token 8
  v0 > v0 v1 v2: accept view 0 place 3 commit 3 token 9
v0 is up in view 0 knows 2
";
