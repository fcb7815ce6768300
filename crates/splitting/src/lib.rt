// Rings where a polynomial has all its roots are specifications only.
