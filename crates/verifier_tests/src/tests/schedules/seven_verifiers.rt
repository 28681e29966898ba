pub const TEXT: &str = "
# Of seven verifiers three may be lost: four tokens and four acceptances are enough, and with three
# pairs of tokens none can come to four.
u 3
v0 opens
v6 opens
e0 > v0: token 7 of batch 1 epoch 1 over 0
e1 > v0: token 7 of batch 1 epoch 1 over 0
e5 > v0: token 7 of batch 1 epoch 1 over 0
e6 > v0: token 7 of batch 1 epoch 1 over 0
  v0 > v0 v1 v2 v3 v4 v5 v6: accept view 0 place 1 commit 1 token 7
v0 > v6: accept view 0 place 1 commit 1 token 7
  v6 > v0 v1 v2 v3 v4 v5 v6: accepted view 0 place 1 commit 1 token 7
v1 > v0: accepted view 0 place 1 commit 1 token 7
v2 > v0: accepted view 0 place 1 commit 1 token 7
v5 > v0: accepted view 0 place 1 commit 1 token 7
v6 > v0: accepted view 0 place 1 commit 1 token 7
  v0 > v1 v2 v3 v4 v5 v6 e0 e1 e2 e3 e4 e5 e6: decided place 1 commit 1 token 7
e0 > v0: token 1 of batch 2 epoch 1 over 7
e1 > v0: token 1 of batch 2 epoch 1 over 7
e2 > v0: token 2 of batch 2 epoch 1 over 7
e3 > v0: token 2 of batch 2 epoch 1 over 7
e4 > v0: token 3 of batch 2 epoch 1 over 7
e5 > v0: token 3 of batch 2 epoch 1 over 7
  v0 > v0 v1 v2 v3 v4 v5 v6: accept view 0 place 2 rollback
";
