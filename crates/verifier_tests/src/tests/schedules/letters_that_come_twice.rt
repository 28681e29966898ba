pub const TEXT: &str = "
# Each letter comes twice: what was done is not done again, and who asks again is told again.
u 1
v1 opens
v2 opens
v0 > v1: accept view 0 place 1 commit 1 token 7
  v1 > v0 v1 v2: accepted view 0 place 1 commit 1 token 7
v0 > v1: accept view 0 place 1 commit 1 token 7
  v1 > v0 v1 v2: accepted view 0 place 1 commit 1 token 7
v1 suspects
  v1 > v0 v1 v2: change view 1
v1 > v2: change view 1
  v2 > v1: promise view 1 knows 0 accepted nothing
v1 > v2: change view 1
  v2 > v1: promise view 1 knows 0 accepted nothing

# Two promises of one sender are one.
v2 > v1: promise view 1 knows 0 accepted nothing
v2 > v1: promise view 1 knows 0 accepted nothing
v1 > v1: promise view 1 knows 0 accepted view 0 commit 1 token 7
  v1 > v0 v1 v2: accept view 1 place 1 commit 1 token 7
v1 > v1: promise view 1 knows 0 accepted view 0 commit 1 token 7

v2 > v1: accepted view 1 place 1 commit 1 token 7
v2 > v1: accepted view 1 place 1 commit 1 token 7
v1 > v1: accepted view 1 place 1 commit 1 token 7
  v1 > v0 v2 e0 e1 e2: decided place 1 commit 1 token 7
v1 > v1: accepted view 1 place 1 commit 1 token 7
v1 > v2: decided place 1 commit 1 token 7
v1 > v2: decided place 1 commit 1 token 7
v2 > v1: ask place 1
  v1 > v2: decided place 1 commit 1 token 7
v2 > v1: ask place 1
  v1 > v2: decided place 1 commit 1 token 7
v1 is up in view 1 knows 1
v2 is up in view 1 knows 1
";
