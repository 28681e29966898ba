pub const TEXT: &str = "
# The leader of view 0 has forgotten all that it knows. The next leader is behind: it is told what
# stands in one letter, and proposes for the place after that.
u 1
v0 opens
v1 opens
v2 > v0: decided place 1 commit 1 token 7
v2 > v0: decided place 2 rollback
v2 > v0: decided place 3 commit 2 token 8
v0 trims to 3
v0 is up in view 0 knows 3
v0 has 02 56 00 01 00x8 00 00x7 03 00x7 02 08x32 00x7 02 00x7 02 00x4
v1 suspects
  v1 > v0 v1 v2: change view 1
v1 > v1: change view 1
  v1 > v1: promise view 1 knows 0 accepted nothing
v1 > v0: change view 1
  v0 > v1: promise view 1 knows 3 accepted nothing
v1 > v1: promise view 1 knows 0 accepted nothing
v0 > v1: promise view 1 knows 3 accepted nothing
  v1 > v0: ask place 1
v1 > v0: ask place 1
  v0 > v1: stands place 3 number 2 token 8 epoch 2 first 2
v0 > v1: stands place 3 number 2 token 8 epoch 2 first 2
  v1 > v0 v1 v2: accept view 1 place 4 rollback
v1 is up in view 1 knows 3
v1 has 02 56 01 01 00x7 01 00 00x7 03 00x7 02 08x32 00x7 02 00x7 02 00x4

# Both decide it.
v1 > v0: accept view 1 place 4 rollback
  v0 > v0 v1 v2: accepted view 1 place 4 rollback
v0 > v1: accepted view 1 place 4 rollback
v1 > v1: accept view 1 place 4 rollback
  v1 > v0 v1 v2: accepted view 1 place 4 rollback
v1 > v1: accepted view 1 place 4 rollback
  v1 > v0 v2 e0 e1 e2: decided place 4 rollback
v1 > v0: decided place 4 rollback
v0 has 02 56 00 01 00x7 01 00 00x7 03 00x7 02 08x32 00x7 02 00x7 02 00x3 01 00
";
