// The algebra is specifications only.
