pub const TEXT: &str = "
# What was accepted and heard of an earlier place is forgotten.
u 1
v1 opens
v0 > v1: accept view 0 place 1 commit 1 token 7
  v1 > v0 v1 v2: accepted view 0 place 1 commit 1 token 7
v0 > v1: accepted view 0 place 1 rollback
v1 has 01 56 01 01 00x8 01 00x8 01 00x7 01 07x32 00x4
v2 > v1: stands place 4 number 3 token 9 epoch 2 first 2
v1 is up in view 0 knows 4
v1 has 02 56 01 01 00x8 00 00x7 04 00x7 03 09x32 00x7 02 00x7 02 00x4
v2 > v1: change view 2
  v1 > v2: promise view 2 knows 4 accepted nothing

# One acceptance of the next place is not enough: that of place 1 does not count.
v2 > v1: accepted view 0 place 5 rollback
v0 > v1: accepted view 0 place 5 rollback
  v1 > v0 v2 e0 e1 e2: decided place 5 rollback
v1 has 02 56 01 01 00x7 02 00 00x7 04 00x7 03 09x32 00x7 02 00x7 02 00x3 01 00

# A decree of an earlier place changes nothing, and a later one makes it ask.
v0 > v1: decided place 4 rollback
v0 > v1: decided place 7 rollback
  v1 > v0: ask place 6

# Told of a place above again, and it is there at once.
v0 > v1: stands place 9 number 3 token 9 epoch 7 first 4
v1 is up in view 2 knows 9
v1 has 02 56 01 01 00x7 02 00 00x7 09 00x7 03 09x32 00x7 07 00x7 04 00x4
v1 opens
  v1 > v0 v2: ask place 10

# A leader that is told of a place above may propose there, by the votes that it has of it.
v1 suspects
  v1 > v0 v1 v2: change view 4
e0 > v1: token 5 of batch 6 epoch 8 over 4
e1 > v1: token 5 of batch 6 epoch 8 over 4
v1 > v1: promise view 4 knows 9 accepted nothing
v0 > v1: promise view 4 knows 12 accepted nothing
  v1 > v0: ask place 10
v0 > v1: stands place 12 number 5 token 4 epoch 8 first 4
  v1 > v0 v1 v2: accept view 4 place 13 commit 6 token 5
";
