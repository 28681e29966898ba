pub const TEXT: &str = "
# Three executors come to three states: no token can come to two of them, so the leader has the batch
# undone without any suspicion.
u 1
v0 opens
e0 > v0: token 7 of batch 1 epoch 1 over 0
e1 > v0: token 8 of batch 1 epoch 1 over 0

# Over another state it is no vote of this batch, and another token of executor 0 comes too late.
e2 > v0: token 9 of batch 1 epoch 1 over 5
e0 > v0: token 8 of batch 1 epoch 1 over 0
e2 > v0: token 9 of batch 1 epoch 1 over 0
  v0 > v0 v1 v2: accept view 0 place 1 rollback
v0 > v0: accept view 0 place 1 rollback
  v0 > v0 v1 v2: accepted view 0 place 1 rollback
v0 > v0: accepted view 0 place 1 rollback
v2 > v0: accepted view 0 place 1 rollback
  v0 > v1 v2 e0 e1 e2: decided place 1 rollback

# In epoch 2 two tokens are enough again.
e0 > v0: token 7 of batch 1 epoch 2 over 0
e2 > v0: token 7 of batch 1 epoch 2 over 0
  v0 > v0 v1 v2: accept view 0 place 2 commit 1 token 7
";
