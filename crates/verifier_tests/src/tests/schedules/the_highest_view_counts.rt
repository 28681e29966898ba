pub const TEXT: &str = "
# Of what the promises say was accepted, the leader takes the decree of the highest view.
u 2
v3 opens
v3 suspects
  v3 > v0 v1 v2 v3 v4: change view 3
v0 > v3: promise view 3 knows 0 accepted view 0 commit 1 token 7
v2 > v3: promise view 3 knows 0 accepted view 2 rollback
v4 > v3: promise view 3 knows 0 accepted view 1 commit 1 token 8
  v3 > v0 v1 v2 v3 v4: accept view 3 place 1 rollback
";
