pub const TEXT: &str = "
# The lead and the votes are lost at a crash. It leads again only in a later view of its own.
u 1
v0 opens
e0 > v0: token 7 of batch 1 epoch 1 over 0
v0 opens
  v0 > v1 v2: ask place 1
e1 > v0: token 7 of batch 1 epoch 1 over 0
e2 > v0: token 7 of batch 1 epoch 1 over 0
v0 is up in view 0 knows 0
v0 suspects
  v0 > v0 v1 v2: change view 3
v1 > v0: promise view 3 knows 0 accepted nothing
v2 > v0: promise view 3 knows 0 accepted nothing
  v0 > v0 v1 v2: accept view 3 place 1 commit 1 token 7

# A promise to an earlier view is not to this one, and a higher view of another ends the lead.
v1 > v0: change view 4
  v0 > v1: promise view 4 knows 0 accepted nothing
v0 > v0: promise view 3 knows 0 accepted nothing
v0 is up in view 4 knows 0
";
