pub const TEXT: &str = "
# Verifier 2 of seven leads views 2, 9, 16, 23 and so on, and goes to the least of them above its
# view.
u 3
v2 opens
v1 > v2: change view 1
  v2 > v1: promise view 1 knows 0 accepted nothing
v2 suspects
  v2 > v0 v1 v2 v3 v4 v5 v6: change view 2
v2 suspects
  v2 > v0 v1 v2 v3 v4 v5 v6: change view 9
v3 > v2: change view 10
  v2 > v3: promise view 10 knows 0 accepted nothing
v2 suspects
  v2 > v0 v1 v2 v3 v4 v5 v6: change view 16

# Above the greatest number there is none.
v1 > v2: change view 18446744073709551615
  v2 > v1: promise view 18446744073709551615 knows 0 accepted nothing
v2 suspects
  stopped
v2 is stopped
v2 has 01 56 02 03 FFx8 00 00x4
";
