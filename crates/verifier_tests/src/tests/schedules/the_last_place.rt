pub const TEXT: &str = "
# The place after what is known has a number. A decree after which it would have none stops the
# verifier, and so does a start there.
u 1
v1 opens
v2 > v1: stands place 18446744073709551614 number 18446744073709551613 token 7 epoch 2 first 1
v1 is up in view 0 knows 18446744073709551614
v2 > v1: ask place 1
  v1 > v2: stands place 18446744073709551614 number 18446744073709551613 token 7 epoch 2 first 1
v2 > v1: ask place 18446744073709551615
v2 > v1: decided place 18446744073709551615 commit 1 token 7
v2 > v1: decided place 18446744073709551615 rollback
  stopped
v1 is stopped
v1 has 02 56 01 01 00x8 00 FFx7 FE FFx7 FD 07x32 00x7 02 00x7 01 00x4
v1 opens
  v1 > v0 v2: ask place 18446744073709551615
v2 > v1: stands place 18446744073709551615 number 18446744073709551614 token 7 epoch 2 first 1
  stopped
v1 is stopped

v0 opens
v2 > v0: stands place 18446744073709551615 number 18446744073709551614 token 7 epoch 2 first 1
  stopped
v0 is stopped
v0 has 01 56 00 01 00x8 00 00x4
";
