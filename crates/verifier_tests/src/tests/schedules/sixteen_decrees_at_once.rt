pub const TEXT: &str = "
# A verifier tells at most sixteen decrees at once.
u 1
v1 opens
v0 > v1: decided place 1 rollback
v0 > v1: decided place 2 rollback
v0 > v1: decided place 3 rollback
v0 > v1: decided place 4 rollback
v0 > v1: decided place 5 rollback
v0 > v1: decided place 6 rollback
v0 > v1: decided place 7 rollback
v0 > v1: decided place 8 rollback
v0 > v1: decided place 9 rollback
v0 > v1: decided place 10 rollback
v0 > v1: decided place 11 rollback
v0 > v1: decided place 12 rollback
v0 > v1: decided place 13 rollback
v0 > v1: decided place 14 rollback
v0 > v1: decided place 15 rollback
v0 > v1: decided place 16 rollback
v0 > v1: decided place 17 rollback
v1 is up in view 0 knows 17
v2 > v1: ask place 1
  v1 > v2: decided place 1 rollback
  v1 > v2: decided place 2 rollback
  v1 > v2: decided place 3 rollback
  v1 > v2: decided place 4 rollback
  v1 > v2: decided place 5 rollback
  v1 > v2: decided place 6 rollback
  v1 > v2: decided place 7 rollback
  v1 > v2: decided place 8 rollback
  v1 > v2: decided place 9 rollback
  v1 > v2: decided place 10 rollback
  v1 > v2: decided place 11 rollback
  v1 > v2: decided place 12 rollback
  v1 > v2: decided place 13 rollback
  v1 > v2: decided place 14 rollback
  v1 > v2: decided place 15 rollback
  v1 > v2: decided place 16 rollback
v2 > v1: ask place 2
  v1 > v2: decided place 2 rollback
  v1 > v2: decided place 3 rollback
  v1 > v2: decided place 4 rollback
  v1 > v2: decided place 5 rollback
  v1 > v2: decided place 6 rollback
  v1 > v2: decided place 7 rollback
  v1 > v2: decided place 8 rollback
  v1 > v2: decided place 9 rollback
  v1 > v2: decided place 10 rollback
  v1 > v2: decided place 11 rollback
  v1 > v2: decided place 12 rollback
  v1 > v2: decided place 13 rollback
  v1 > v2: decided place 14 rollback
  v1 > v2: decided place 15 rollback
  v1 > v2: decided place 16 rollback
  v1 > v2: decided place 17 rollback
v2 > v1: ask place 17
  v1 > v2: decided place 17 rollback
v2 > v1: ask place 18
";
