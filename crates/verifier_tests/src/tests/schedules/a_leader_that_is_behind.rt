pub const TEXT: &str = "
# A promise tells of a decree that the leader does not know: it asks for it, and waits with its
# proposal until it knows as much.
u 1
v1 opens
v2 opens
v0 > v2: decided place 1 commit 1 token 7
v1 suspects
  v1 > v0 v1 v2: change view 1
v1 > v2: change view 1
  v2 > v1: promise view 1 knows 1 accepted nothing
v2 > v1: promise view 1 knows 1 accepted nothing
  v1 > v2: ask place 1
v1 > v1: promise view 1 knows 0 accepted nothing
v1 > v2: ask place 1
  v2 > v1: decided place 1 commit 1 token 7
v2 > v1: decided place 1 commit 1 token 7
  v1 > v0 v1 v2: accept view 1 place 2 rollback
v1 is up in view 1 knows 1
";
