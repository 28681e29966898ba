pub const TEXT: &str = "
# Nothing of this changes verifier 1, or is answered.
u 1
v1 opens
v0 > v1: decided place 1 commit 1 token 7
v0 > v1: decided place 2 rollback

# Not ahead of what it knows.
v2 > v1: stands place 2 number 1 token 7 epoch 2 first 2
v2 > v1: stands place 2 number 2 token 7 epoch 1 first 1
v2 > v1: stands place 1 number 1 token 7 epoch 1 first 1
v2 > v1: stands place 0 number 0 token 0 epoch 1 first 1

# Number and epoch that do not count the place.
v2 > v1: stands place 3 number 1 token 7 epoch 2 first 1
v2 > v1: stands place 3 number 3 token 7 epoch 2 first 1
v2 > v1: stands place 18446744073709551615 number 18446744073709551615 token 7 epoch 2 first 1

# No epoch.
v2 > v1: stands place 3 number 4 token 7 epoch 0 first 1

# No first number, and one above the next.
v2 > v1: stands place 3 number 2 token 7 epoch 2 first 0
v2 > v1: stands place 3 number 2 token 7 epoch 2 first 4

# Number 0 of some token, and epoch 1 from a later number on.
v2 > v1: stands place 3 number 0 token 7 epoch 4 first 1
v2 > v1: stands place 3 number 3 token 7 epoch 1 first 2

# Of an executor, and of a client.
e0 > v1: stands place 3 number 2 token 7 epoch 2 first 2
c1 > v1: stands place 3 number 2 token 7 epoch 2 first 2

# Places that may not be forgotten: above what is known, and the first start.
v1 trims to 3
v1 trims to 18446744073709551615
v1 trims to 0

v1 is up in view 0 knows 2
v1 has 01 56 01 01 00x8 00 00x3 02 01 00x7 01 07x32 00

# Each of these could stand.
v2 > v1: stands place 3 number 2 token 7 epoch 2 first 3
v1 is up in view 0 knows 3
v2 > v1: stands place 4 number 0 token 0 epoch 5 first 1
v1 is up in view 0 knows 4
v2 > v1: stands place 5 number 5 token 0 epoch 1 first 1
v1 is up in view 0 knows 5
v1 has 02 56 01 01 00x8 00 00x7 05 00x7 05 00x32 00x7 01 00x7 01 00x4
";
