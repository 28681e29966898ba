pub const TEXT: &str = "
# Who asks for a place that is forgotten, or proposes for it, is told what stands in one letter.
u 1
v1 opens
v0 > v1: decided place 1 rollback
v0 > v1: decided place 2 rollback
v0 > v1: decided place 3 commit 1 token 7
v0 > v1: decided place 4 commit 2 token 9
v1 trims to 3
v2 > v1: ask place 1
  v1 > v2: stands place 4 number 2 token 9 epoch 3 first 1
v2 > v1: ask place 3
  v1 > v2: stands place 4 number 2 token 9 epoch 3 first 1
e0 > v1: ask place 2
  v1 > e0: stands place 4 number 2 token 9 epoch 3 first 1
v0 > v1: accept view 0 place 1 rollback
  v1 > v0: stands place 4 number 2 token 9 epoch 3 first 1
v0 > v1: accept view 0 place 3 commit 1 token 7
  v1 > v0: stands place 4 number 2 token 9 epoch 3 first 1

# What comes after is told as ever.
v2 > v1: ask place 4
  v1 > v2: decided place 4 commit 2 token 9
v2 > v1: ask place 5
v2 > v1: ask place 0
v0 > v1: accept view 0 place 4 rollback
  v1 > v0: decided place 4 commit 2 token 9
v0 > v1: accept view 0 place 6 rollback
  v1 > v0: ask place 5
v0 > v1: accept view 0 place 5 commit 3 token 5
  v1 > v0 v1 v2: accepted view 0 place 5 commit 3 token 5
v1 is up in view 0 knows 4
v1 has 02 56 01 01 00x8 01 00x8 01 00x7 03 05x32 00x7 03 00x7 01 07x32 00x7 03 00x7 01 00x3 01 01 00x7 02 09x32

# A place that is forgotten already, and then all.
v1 trims to 3
v1 trims to 2
v1 trims to 4
v1 has 02 56 01 01 00x8 01 00x8 01 00x7 03 05x32 00x7 04 00x7 02 09x32 00x7 03 00x7 01 00x4
v2 > v1: ask place 4
  v1 > v2: stands place 4 number 2 token 9 epoch 3 first 1

# It goes on from that record, and what it has accepted stays.
v1 opens
  v1 > v0 v2: ask place 5
v1 is up in view 0 knows 4
v2 > v1: change view 2
  v1 > v2: promise view 2 knows 4 accepted view 0 commit 3 token 5
v2 > v1: decided place 5 commit 3 token 5
v2 > v1: ask place 5
  v1 > v2: decided place 5 commit 3 token 5
v1 has 02 56 01 01 00x7 02 00 00x7 04 00x7 02 09x32 00x7 03 00x7 01 00x3 01 01 00x7 03 05x32
";
